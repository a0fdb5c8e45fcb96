use ds_formula::cells::{Cell, Shape};
use ds_formula::fault::{FaultKind, TextFault};
use ds_formula::reading::read_content;
use std::fmt::Write;
use std::process::Abort;
use std::test::Fail;

// Texts on a sheet of two columns and two rows, each with its fault and offset after a bar, or with nothing where it is
// accepted.
const ROWS: &str = "=|Unfinished 1
-|Unfinished 1
of:|BadToken 0
1 |BadToken 1
1.5|NotWhole 1
=1 2|BadToken 3
=1e5|NotWhole 2
=.5|BadToken 1
=9223372036854775808|NumberTooLarge 1
=[A1]|BadToken 2
=[.A0]|BadToken 4
=[.A1|Unfinished 5
=[.A3]|OutsideSheet 1
=SUM(1;;2)|BadToken 7
=SUM((1;2))|BadToken 7
=IF(1)|WrongArguments 1
=SUM 1|BadToken 5
=A1|UnknownFunction 1
=1)|BadToken 2
=SUM(([.A1:.B2]))|
=SUM([.A1:.B2]+1)|RangeNotAllowed 5
=--1|
=2-3-4|
=1<2=1|
=-2*3+4>=-2|
= 1 + 2|
+007|
=1.5|NotWhole 2
=[.C1]|OutsideSheet 1
=1+|Unfinished 3
=[.A1:.A2]|RangeNotAllowed 1
=SUM()|WrongArguments 1
=PI(1)|UnknownFunction 1
|
of:=sum([.$A$1:.A2])|
==SUM([.A2:.A1])|
=IF(0;MOD(1;0))|
=QUOTIENT(1;0)+(9223372036854775807+1)|
=1+1+1+1+1+1+1+1+1+1+1+1+1+1+1+1|
=1+1+1+1+1+1+1+1+1+1+1+1+1+1+1+1+1|TooDeep 0
=1+ |Unfinished 4
=1 |
= =1|BadToken 2
===1|BadToken 2
OF:=1|BadToken 0
-9223372036854775808|
-9223372036854775809|NumberTooLarge 1
=99999999999999999999.5|NotWhole 21
=ABS([.A1:.A2])|RangeNotAllowed 5
=[.a1]|
=[.AA1]|OutsideSheet 1
=[.A1:.C1|Unfinished 9
=[.A1 ]|BadToken 5
=Sum ( 1 ; 2 )|
=SUM(|Unfinished 5
=SUM|Unfinished 4
=SUM( )|WrongArguments 1
=(1|Unfinished 3
=1<>2|
=1< >2|BadToken 4
x|BadToken 0
99999999999999999999|NumberTooLarge 0
=1.5+2|NotWhole 2
=1+2.|NotWhole 4
=1+99999999999999999999+1|NumberTooLarge 3
=1+99999999999999999999|NumberTooLarge 3
=x|UnknownFunction 1
=1+x(2)+3|UnknownFunction 3
=1+x|UnknownFunction 3
=IF(1)+1|WrongArguments 1
=1+MOD(1)+1|WrongArguments 3
=1+ABS()|WrongArguments 3
=[.C1]+1|OutsideSheet 1
=1+[.C1]+1|OutsideSheet 3
=1+[.C1]|OutsideSheet 3
=[.A1:.A2]+1|RangeNotAllowed 1
=1+[.A1:.A2]+1|RangeNotAllowed 3
=1+[.A1:.A2]|RangeNotAllowed 3
=ABS([.A1:.A2])+[.A1:.A2]|RangeNotAllowed 5
=1+1+1+1+1+1+1+1+1+1+1+1+1+1+1+1+1+[.A1:.A2]|RangeNotAllowed 35
=(((((((((((((((((((((((((((((((((((((((((((((((((((((((((((1)))))))))))))))))))))))))))))))))))))))))))))))))))))))))))|
=(((((((((((((((((((((((((((((((((((((((((((((((((((((((((((((((((((((((((((((((((((((((((((((((((((((((((((((((((((((((|Unfinished 120
=-----------------------------------------------------------------------------------------------------------------------|Unfinished 120
=----------------------------------------------------------------------------------------------------------------------1|TooDeep 0
=---------------1|
=----------------1|TooDeep 0
=SUM(1;-1;-1;-1;-1;-1;-1;-1;-1;-1;-1;-1;-1;-1;-1;-1;-1;-1;-1;-1;-1;-1;-1;-1;-1;-1;-1;-1;-1;-1;-1;-1)|
=SUM(1;-1;-1;-1;-1;-1;-1;-1;-1;-1;-1;-1;-1;-1;-1;-1;-1;-1;-1;-1;-1;-1;-1;-1;-1;-1;-1;-1;-1;-1;-1;-1;1)|TooDeep 0
=99999999999999999999999999999999999999999999999999999999999999999999999999999999999999999999999999999999999999999999999|NumberTooLarge 1
9999999999999999999999999999999999999999999999999999999999999999999999999999999999999999999999999999999999999999999999999|NumberTooLarge 0
xxxxxxxxxxxxxxxxxxxxxxxxxxxxxxxxxxxxxxxxxxxxxxxxxxxxxxxxxxxxxxxxxxxxxxxxxxxxxxxxxxxxxxxxxxxxxxxxxxxxxxxxxxxxxxxxxxxxxxxxx|BadToken 0
=SUM([.A1:.B2];(([.B2:.A1])))|
=IF(1;[.A1:.A2])|RangeNotAllowed 6
=-[.A1:.A2]|RangeNotAllowed 2
=SUM(-[.A1:.A2])|RangeNotAllowed 6
=NOT()|WrongArguments 1
=NOT(1;2)|WrongArguments 1
=NOT([.A1:.A2])|RangeNotAllowed 5
=COUNT()|WrongArguments 1
=AND( )|WrongArguments 1
=1+OR()|WrongArguments 3
=COUNT([.A1:.B2];[.A2];5)|
=and(1)|
=Or([.a1:.b2])|
=NoT([.A1])|
=COUNTA(1)|UnknownFunction 1
=XOR(1)|UnknownFunction 1
=NOT 1|BadToken 5
=COUNT([.A1:.A2]+1)|RangeNotAllowed 7
=AND((([.A1:.B2])))|
=NOT(([.A1:.A2]))|RangeNotAllowed 6
=1+NOT(1;2)+PI()|WrongArguments 3
=OR(1;;2)|BadToken 6
=COUNT|Unfinished 6
=AND(NOT(|Unfinished 9
=COUNT(-[.A1:.A2])|RangeNotAllowed 8
=IF(AND(1;0);COUNT(1);OR(0))|
=NOT(NOT(NOT(NOT(NOT(NOT(NOT(NOT(NOT(NOT(NOT(NOT(NOT(NOT(NOT(1)))))))))))))))|
=NOT(NOT(NOT(NOT(NOT(NOT(NOT(NOT(NOT(NOT(NOT(NOT(NOT(NOT(NOT(NOT(1))))))))))))))))|TooDeep 0
000000000000000000000000000000000000000000000000000000000000000000000000000000000000000000000000000000000000000000000000000000000000000000000000000000000000000000000000000000000000000000000000000000000000000000000000000000000000000000000000|
0000000000000000000000000000000000000000000000000000000000000000000000000000000000000000000000000000000000000000000000000000000000000000000000000000000000000000000000000000000000000000000000000000000000000000000000000000000000000000000000000|TooLong 240
=(((((((((((((((((((((((((((((((((((((((((((((((((((((((((((((((((((((((((((((((((((((((((((((((((((((((((((((((((((((((1)))))))))))))))))))))))))))))))))))))))))))))))))))))))))))))))))))))))))))))))))))))))))))))))))))))))))))))))))))))))|
=(((((((((((((((((((((((((((((((((((((((((((((((((((((((((((((((((((((((((((((((((((((((((((((((((((((((((((((((((((((((((((((((((((((((((((((((((((((((((((((((((((((((((((((((((((((((((((((((((((((((((((((((((((((((((((((((((((((((((((((((|Unfinished 240
=-----------------------------------------------------------------------------------------------------------------------------------------------------------------------------------------------------------------------------------------------|Unfinished 240
=----------------------------------------------------------------------------------------------------------------------------------------------------------------------------------------------------------------------------------------------1|TooDeep 0
999999999999999999999999999999999999999999999999999999999999999999999999999999999999999999999999999999999999999999999999999999999999999999999999999999999999999999999999999999999999999999999999999999999999999999999999999999999999999999999999|NumberTooLarge 0
=99999999999999999999999999999999999999999999999999999999999999999999999999999999999999999999999999999999999999999999999999999999999999999999999999999999999999999999999999999999999999999999999999999999999999999999999999999999999999999999999|NumberTooLarge 1
9999999999999999999999999999999999999999999999999999999999999999999999999999999999999999999999999999999999999999999999999999999999999999999999999999999999999999999999999999999999999999999999999999999999999999999999999999999999999999999999999|TooLong 240
xxxxxxxxxxxxxxxxxxxxxxxxxxxxxxxxxxxxxxxxxxxxxxxxxxxxxxxxxxxxxxxxxxxxxxxxxxxxxxxxxxxxxxxxxxxxxxxxxxxxxxxxxxxxxxxxxxxxxxxxxxxxxxxxxxxxxxxxxxxxxxxxxxxxxxxxxxxxxxxxxxxxxxxxxxxxxxxxxxxxxxxxxxxxxxxxxxxxxxxxxxxxxxxxxxxxxxxxxxxxxxxxxxxxxxxxxxxxxxxxx|TooLong 240
=                                                                                                                                                                                                                                              1|
=                                                                                                                                                                                                                                               |Unfinished 240";

fn expect_read(rt: &(impl Abort + AllocGlobal), text: &str, want: &str) -> Result<(), Fail> {
    let shape = Shape::new(2, 2).ok_or("shape")?;
    let mut got = String::new(rt.alloc());
    if let Err(fault) = read_content(rt.alloc(), &shape, text.as_bytes()) {
        write!(got, "{fault}")?;
    }
    assert!(rt; got.as_str() == want, "at {text}");
    Ok(())
}

#[test]
fn faults(rt: HostRuntime) -> Result<(), Fail> {
    for row in ROWS.lines() {
        let (text, want) = row.split_once('|').ok_or("row")?;
        expect_read(&rt, text, want)?;
    }
    // White space that would end a row.
    expect_read(&rt, "=\t1\r\n", "")
}

// A text, the text that its content is written as, and the cells written in it, with bars between them.
const WRITTEN: &str = "||
+007|7|
-9223372036854775808|-9223372036854775808|
= 1 + 2|=1+2|
of:==2-(3-4)|=2-(3-4)|
=(2-3)-4|=2-3-4|
=2*(3+4)*-(-5)|=2*(3+4)*--5|
=-(2*3)|=-(2*3)|
=(1<2)=1|=1<2=1|
=1<(2=1)|=1<(2=1)|
=1<>[.b$2]|=1<>[.B2]|B2 
=sum(([.$B$3:.a2]);[.Z39];[.A1])|=SUM([.A2:.B3];[.Z39];[.A1])|A1 A2 B2 A3 B3 Z39 
=if([.C1];mod(7;[.B1]);Quotient(abs([.C1]);3))|=IF([.C1];MOD(7;[.B1]);QUOTIENT(ABS([.C1]);3))|B1 C1 
=not(Count([.B1:.A2];1))|=NOT(COUNT([.A1:.B2];1))|A1 B1 A2 B2 
=or(and([.C1]);(0))|=OR(AND([.C1]);0)|C1 ";

fn expect_written(
    rt: &(impl Abort + AllocGlobal),
    text: &str,
    written: &str,
    cells: &str,
) -> Result<(), Fail> {
    let shape = Shape::new(26, 39).ok_or("shape")?;
    let content = read_content(rt.alloc(), &shape, text.as_bytes())?;
    let copy = content.copy(rt.alloc())?;
    assert_eq!(rt; copy.text(rt.alloc())?.as_str(), written, "at {text}");
    let mut shown = String::new(rt.alloc());
    for cell in copy.refs(rt.alloc())?.iter() {
        write!(shown, "{cell} ")?;
    }
    assert_eq!(rt; shown.as_str(), cells, "at {text}");
    Ok(())
}

#[test]
fn texts_and_cells(rt: HostRuntime) -> Result<(), Fail> {
    for row in WRITTEN.lines() {
        let (text, rest) = row.split_once('|').ok_or("row")?;
        let (written, cells) = rest.split_once('|').ok_or("row")?;
        expect_written(&rt, text, written, cells)?;
    }
    Ok(())
}

#[test]
fn names(rt: HostRuntime) -> Result<(), Fail> {
    let shape = Shape::new(2, 10).ok_or("shape")?;
    assert_eq!(rt; shape.named(b"b10"), Some(Cell { column: 1, row: 9 }));
    for text in ["", "A", "1", "A0", "A01", "C1", "AA1", "A11", "A1 ", "$A$1"] {
        assert_eq!(rt; shape.named(text.as_bytes()), None, "at {text}");
    }
    let fault = TextFault {
        kind: FaultKind::NotWhole,
        offset: 2,
    };
    let mut shown = String::new(rt.alloc());
    write!(
        shown,
        "{fault} {} {}",
        Cell {
            column: 25,
            row: 63
        },
        Cell { column: 26, row: 0 }
    )?;
    assert_eq!(rt; shown.as_str(), "NotWhole 2 Z64 #REF!");
    Ok(())
}
