// The readable text of whole and damaged texts.
use super::answers::{Case, Tool, compare, compare_in_pieces};
use mps_desk::DeskCall;
use std::alloc::{AllocError, Global};
use std::process::Abort;
use std::test::Fail;

// A block is made and labelled, moves, becomes a message and is freed. The last line lacks its line feed.
const LABELLED: &[u8] =
    b"mpslog 2\n7 80 1000 3 0\n9 96 0 676e6972 0\n10 97 1000 0\n11 82 1000 2000\n11 84 2000\n11 85 2000";

const LABELLED_READABLE: &[u8] =
    b"mpslog 2\n7 Commit at=0x1000 words=3 pool=0\n9 Intern id=0 name=ring\n\
    10 Label at=0x1000[ring] id=0\n11 Move from=0x1000[ring] to=0x2000[ring]\n11 Post at=0x2000[ring]\n\
    11 Free at=0x2000[ring]\n";

// Texts of version 1 whose second line is wrong: zeros in front, spaces, fields, numbers, codes.
const BAD_SECOND: [&[u8]; 18] = [
    b"mpslog 1\n1 1 8\n",
    b"mpslog 1\n1 21\n",
    b"mpslog 1\n1 82 A 1\n",
    b"mpslog 1\n01 33\n",
    b"mpslog 1\n1 82 01 1\n",
    b"mpslog 1\n010 33\n",
    b"mpslog 1\n1 85 01000\n",
    b"mpslog 1\n1 33 \n",
    b"mpslog 1\n1  33\n",
    b"mpslog 1\n 1 33\n",
    b"mpslog 1\n1 85 aBc\n",
    b"mpslog 1\n1 85\n",
    b"mpslog 1\n1 33 0",
    b"mpslog 1\n4294967296 33\n",
    b"mpslog 1\n1 85 10000000000000000\n",
    b"mpslog 1\n1 65633\n",
    b"mpslog 1\n1 3\n",
    b"mpslog 1\n9 96 0 676e6972 0\n",
];

// Texts of version 2 whose third line is wrong: no name, a name and a label out of order, an empty line.
const BAD_THIRD: [&[u8]; 4] = [
    b"mpslog 2\n1 33\n9 96 0 52 0\n",
    b"mpslog 2\n1 33\n9 96 1 676e6972 0\n",
    b"mpslog 2\n1 33\n9 97 1000 0\n",
    b"mpslog 2\n1 33\n\n",
];

// Texts without a first line.
const NO_FIRST: [&[u8]; 4] = [
    b"",
    b"mpslog 3\n1 33\n",
    b"mpslog 9\n",
    b"mpslog 1\r\n1 33\r\n",
];

// Up to its second read, of 20 bytes each, one line of it comes whole.
const CUT: &[u8] = b"mpslog 1\n1 1 8 8\n7 80 1000 3 0\n";

/// What a text gives: its status, what is printed and what is reported.
fn case_of<'a>(input: &'a [u8], status: u8, printed: &'a [u8], reported: &'a [u8]) -> Case<'a> {
    Case {
        tool: Tool::Txt,
        input,
        failing: &[],
        status,
        printed,
        reported,
    }
}

/// Each of these texts is wrong, after this was printed of it, and is reported so.
fn compare_bad(
    rt: &impl Abort,
    alloc: Global,
    texts: &[&[u8]],
    printed: &[u8],
    reported: &[u8],
) -> Result<(), AllocError> {
    for text in texts {
        let case = case_of(text, 6, printed, reported);
        compare_in_pieces(rt, alloc, &case, &[usize::MAX, 7, 1])?;
    }
    Ok(())
}

/// A whole text, and texts with a wrong line.
#[test]
fn texts_in_pieces(rt: HostRuntime) -> Result<(), Fail> {
    let alloc = rt.alloc();
    let whole = case_of(LABELLED, 0, LABELLED_READABLE, b"");
    compare_in_pieces(&rt, alloc, &whole, &[usize::MAX, 7, 1])?;
    compare_bad(&rt, alloc, &NO_FIRST, b"", b"mps: text line 1: bad line\n")?;
    compare_bad(
        &rt,
        alloc,
        &BAD_SECOND,
        b"mpslog 1\n",
        b"mps: text line 2: bad line\n",
    )?;
    compare_bad(
        &rt,
        alloc,
        &BAD_THIRD,
        b"mpslog 2\n1 End\n",
        b"mps: text line 3: bad line\n",
    )?;
    Ok(())
}

/// More bytes stand before a line feed than any line of a record has.
#[test]
fn a_text_with_a_long_line(rt: HostRuntime) -> Result<(), Fail> {
    let mut text = Vec::from_slice(rt.alloc(), b"mpslog 1\n")?;
    text.resize(5000, b'1')?;
    let case = case_of(&text, 6, b"mpslog 1\n", b"mps: text line 2: bad line\n");
    compare_in_pieces(&rt, rt.alloc(), &case, &[usize::MAX, 100])?;
    Ok(())
}

/// The second read fails, after 20 bytes: the whole line among them is printed.
#[test]
fn a_read_that_fails(rt: HostRuntime) -> Result<(), Fail> {
    let case = Case {
        tool: Tool::Txt,
        input: CUT,
        failing: &[(DeskCall::Read, 2)],
        status: 3,
        printed: b"mpslog 1\n1 ArenaCreate grains=8 limit=8\n",
        reported: b"mps: read failed\n",
    };
    compare(&rt, rt.alloc(), &case, 20)?;
    Ok(())
}

/// A write fails, alone and after a read that failed before; and a report fails, which changes no status.
#[test]
fn calls_that_fail(rt: HostRuntime) -> Result<(), Fail> {
    for (first, second, number, status, printed, reported) in [
        (
            DeskCall::Out,
            DeskCall::Out,
            2u64,
            4u8,
            b"".as_slice(),
            b"mps: write failed\n".as_slice(),
        ),
        (
            DeskCall::Out,
            DeskCall::Read,
            2,
            3,
            b"",
            b"mps: read failed\n",
        ),
        (DeskCall::Err, DeskCall::Read, 1, 3, b"", b""),
    ] {
        let case = Case {
            tool: Tool::Txt,
            input: LABELLED,
            failing: &[(first, 1), (second, number)],
            status,
            printed,
            reported,
        };
        compare(&rt, rt.alloc(), &case, 30)?;
    }
    Ok(())
}
