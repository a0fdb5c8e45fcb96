//! The calls on a register: what they are, the access of each stage, and the stage that follows it.

ghost use Rattle.std.specs.Prelude.{◌≡◌, ◌+◌, ◌*◌, ◌<◌, ◌^◌, ℕ};
ghost use Rattle.pm_registers.specs.Calls.{write_access, write_next, recover_access, recover_next, recalled};

use ds_words::access::Access;

/// Where a write is.
#[derive(Clone, Copy, Debug, PartialEq, Eq)]
pub enum WriteStage {
    /// It stores the value in the announcement.
    StoreAnnounce,
    /// It flushes the announcement.
    FlushAnnounce,
    /// It writes the announcement back: from then on a recovery finds it.
    BackAnnounce,
    /// It loads the head.
    LoadHead,
    /// It swaps the head from this value to its own: its linearization point.
    Swap(u64),
    /// It flushes the head.
    FlushHead,
    /// It writes the head back: from then on no crash takes the value back.
    BackHead,
    /// It is done.
    Done,
}

/// A write of a process to its register.
#[derive(Clone, Copy, Debug, PartialEq, Eq)]
pub struct WriteCall {
    /// The process, and its register.
    pub process: usize,
    /// The value, above all that the process announced.
    pub value: u64,
    /// Where it is.
    pub stage: WriteStage,
}

/// Where a recovery is.
#[derive(Clone, Copy, Debug, PartialEq, Eq)]
pub enum RecoverStage {
    /// It loads the announcement.
    LoadAnnounce,
    /// It flushes the announcement, of which it loaded this value.
    FlushAnnounce(u64),
    /// It writes the announcement back.
    BackAnnounce(u64),
    /// It loads the head.
    LoadHead(u64),
    /// It flushes the head, of which it loaded the second value.
    FlushHead(u64, u64),
    /// It writes the head back.
    BackHead(u64, u64),
    /// It is done: the announcement and the head.
    Done(u64, u64),
}

/// A recovery of a process.
#[derive(Clone, Copy, Debug, PartialEq, Eq)]
pub struct RecoverCall {
    /// The process, and its register.
    pub process: usize,
    /// Where it is.
    pub stage: RecoverStage,
}

/// What a process does.
#[derive(Clone, Copy, Debug, PartialEq, Eq)]
pub enum Doing {
    /// It knows the last value that it announced.
    Idle(u64),
    /// It is in this write.
    Writing(WriteCall),
    /// It is in this recovery.
    Recovering(RecoverCall),
    /// It has stopped: only a recovery may begin.
    Stopped,
}

/// What a process is answered.
#[derive(Clone, Copy, Debug, PartialEq, Eq)]
pub enum Response {
    /// Its register had the value, and no crash takes that back.
    Wrote(u64),
    /// The last value that it announced, and whether its register had it.
    Recalled(u64, bool),
}

/// The access of a write's next step.
pub fn write_want(call: &WriteCall) -> Access<usize>
    requires { call.now.process < 2 ^ 32 }
    ensures { result ≡ write_access call.now }
{
    let announce = 2 * call.process;
    match call.stage {
        WriteStage::StoreAnnounce => Access::Store(announce, call.value),
        WriteStage::FlushAnnounce => Access::Flush(announce),
        WriteStage::BackAnnounce => Access::Back,
        WriteStage::LoadHead => Access::Load(announce + 1),
        WriteStage::Swap(seen) => Access::SwapIf {
            place: announce + 1,
            expected: seen,
            value: call.value,
        },
        WriteStage::FlushHead => Access::Flush(announce + 1),
        WriteStage::BackHead => Access::Back,
        WriteStage::Done => Access::Nothing,
    }
}

/// Goes on with the word that its access answered.
pub fn write_got(call: &mut WriteCall, word: u64)
    ensures { call.new ≡ write_next call.old word }
{
    call.stage = match call.stage {
        WriteStage::StoreAnnounce => WriteStage::FlushAnnounce,
        WriteStage::FlushAnnounce => WriteStage::BackAnnounce,
        WriteStage::BackAnnounce => WriteStage::LoadHead,
        WriteStage::LoadHead => WriteStage::Swap(word),
        WriteStage::Swap(_) => WriteStage::FlushHead,
        WriteStage::FlushHead => WriteStage::BackHead,
        WriteStage::BackHead => WriteStage::Done,
        WriteStage::Done => WriteStage::Done,
    };
}

/// The access of a recovery's next step.
pub fn recover_want(call: &RecoverCall) -> Access<usize>
    requires { call.now.process < 2 ^ 32 }
    ensures { result ≡ recover_access call.now }
{
    let announce = 2 * call.process;
    match call.stage {
        RecoverStage::LoadAnnounce => Access::Load(announce),
        RecoverStage::FlushAnnounce(_) => Access::Flush(announce),
        RecoverStage::BackAnnounce(_) => Access::Back,
        RecoverStage::LoadHead(_) => Access::Load(announce + 1),
        RecoverStage::FlushHead(_, _) => Access::Flush(announce + 1),
        RecoverStage::BackHead(_, _) => Access::Back,
        RecoverStage::Done(_, _) => Access::Nothing,
    }
}

/// Goes on with the word that its access answered.
pub fn recover_got(call: &mut RecoverCall, word: u64)
    ensures { call.new ≡ recover_next call.old word }
{
    call.stage = match call.stage {
        RecoverStage::LoadAnnounce => RecoverStage::FlushAnnounce(word),
        RecoverStage::FlushAnnounce(last) => RecoverStage::BackAnnounce(last),
        RecoverStage::BackAnnounce(last) => RecoverStage::LoadHead(last),
        RecoverStage::LoadHead(last) => RecoverStage::FlushHead(last, word),
        RecoverStage::FlushHead(last, head) => RecoverStage::BackHead(last, head),
        RecoverStage::BackHead(last, head) => RecoverStage::Done(last, head),
        RecoverStage::Done(last, head) => RecoverStage::Done(last, head),
    };
}

/// What a recovery tells that read these words.
pub fn recall(last: u64, head: u64) -> Response
    ensures { result ≡ recalled last head }
{
    Response::Recalled(last, head == last)
}
