use field::residue::F17;
use sheet::error::SheetError;
use sheet::read_sheet;
use std::alloc::{AllocError, Global};
use std::process::Abort;
use std::test::Fail;

// The lines of a sheet that is read: width 2, six full rounds, one partial round.
const SIZES: &str = "          2          6          1\n";

const ROUND: &str = "          1         16\n";

const LINES: usize = 9;

// That sheet with `text` in the place of its line `at`, counted from 1.
fn with_line(heap: Global, at: usize, text: &str) -> Result<String, AllocError> {
    (1..=LINES)
        .map(|line| {
            if line == at {
                text
            } else if line == 1 {
                SIZES
            } else {
                ROUND
            }
        })
        .collect(heap)
}

// Number and place of the refusal; nothing where the sheet is read.
fn refusal(heap: Global, sheet: &str) -> Result<Option<(u8, usize)>, AllocError> {
    match read_sheet::<F17>(heap, sheet.as_bytes()) {
        Ok(_) => Ok(None),
        Err(SheetError::Refused(refusal)) => Ok(Some((refusal.number(), refusal.place()))),
        Err(SheetError::Memory(error)) => Err(error),
    }
}

// The sheet with `text` in the place of its line `at` has this answer.
fn answers(
    rt: &impl Abort,
    heap: Global,
    at: usize,
    text: &str,
    answer: Option<(u8, usize)>,
) -> Result<(), AllocError> {
    let sheet = with_line(heap, at, text)?;
    assert_eq!(rt; refusal(heap, sheet.as_str())?, answer, "{text}");
    Ok(())
}

#[test]
fn forms(rt: HostRuntime) -> Result<(), Fail> {
    let heap = rt.alloc();
    for (at, text, answer) in [
        (3, ROUND, None),
        (3, "         -0        007\n", None),
        (3, "12345678901-1234567890\n", None),
        (9, "          1         16", Some((10, 9))),
        (3, "\t         1         16\n", Some((10, 3))),
        (3, "         +1         16\n", Some((10, 3))),
        (3, "        1 1         16\n", Some((10, 3))),
        (3, "          1        16 \n", Some((10, 3))),
        (3, "          -         16\n", Some((10, 3))),
        (3, "                    16\n", Some((10, 3))),
        (3, "           1         16\n", Some((10, 3))),
        (3, "          1\n", Some((10, 3))),
        (3, "          1         16\r", Some((10, 3))),
        (3, "          1         16\r\n", Some((10, 3))),
        (5, "\n", Some((10, 5))),
        (5, "", Some((10, 9))),
        (
            9,
            "          1         16\n          1         16\n",
            Some((10, 10)),
        ),
        (9, "          1         16\n ", Some((10, 10))),
        (2, "          1\n", Some((10, 2))),
        (1, "          1          5\n", Some((10, 1))),
        (1, "          1          5          0", Some((10, 1))),
    ] {
        answers(&rt, heap, at, text, answer)?;
    }
    assert_eq!(rt; refusal(heap, "")?, Some((10, 1)));
    Ok(())
}

#[test]
fn sizes(rt: HostRuntime) -> Result<(), Fail> {
    let heap = rt.alloc();
    for (text, answer) in [
        ("          1          6          1\n", Some((1, 0))),
        ("         25          6          1\n", Some((1, 0))),
        ("         -2          5          0\n", Some((1, 0))),
        ("          2          5          1\n", Some((2, 0))),
        ("          2         33          1\n", Some((2, 0))),
        ("          2          6          0\n", Some((3, 0))),
        ("          2          6        129\n", Some((3, 0))),
        ("          2          6         -1\n", Some((3, 0))),
        ("         24          6          1\n", Some((10, 2))),
        ("          2          7          1\n", Some((10, 10))),
    ] {
        answers(&rt, heap, 1, text, answer)?;
    }
    Ok(())
}

#[test]
fn numbers(rt: HostRuntime) -> Result<(), Fail> {
    let heap = rt.alloc();
    let text = with_line(heap, 2, "         -100000000018\n")?;
    let sheet = read_sheet::<F17>(heap, text.as_bytes())?;
    assert!(rt; sheet.width == 2 && sheet.rounds_f == 6 && sheet.rounds_p == 1);
    assert!(rt; sheet.column.as_slice() == [-1, 18].as_slice());
    assert_eq!(rt; sheet.constants.len(), 14);
    let last = sheet.constants.last().map(|c| c.as_canonical_u32());
    assert_eq!(rt; last, Some(16));
    Ok(())
}

#[test]
fn largest(rt: HostRuntime) -> Result<(), Fail> {
    let heap = rt.alloc();
    let mut sheet = String::from_str(heap, "         24         32        128\n")?;
    for _ in 0..161 {
        for _ in 0..24 {
            sheet.push_str(" 9999999999")?;
        }
        sheet.push_str("\n")?;
    }
    assert_eq!(rt; refusal(heap, sheet.as_str())?, None);
    sheet.push_str("\n")?;
    assert_eq!(rt; refusal(heap, sheet.as_str())?, Some((10, 163)));
    Ok(())
}
