//! Lists of many elements that are alike: they are kept once, so what is done to them costs what is
//! written, and not what it says.
use crate::sites::Input::{State, Text};
use crate::sites::{Input, report, site, state_size};
use cue_replica::Refusal;
use std::alloc::Global;
use std::test::Fail;

/// A list at `l` of 65,536 elements at least, the last of which is 5.
const LAST: &[u8] = &[
    0xFE, 0x43, 0x55, 0x45, 2, 0, 0, 0, 0, 0, 0, 0, 3, // three rows
    0, 0, 2, 0, // the root
    1, 0, 0, 1, 0x6C, 2, 3, // a list at the label l
    0, 1, 0, 0, 0, 0, 1, 0, 0, // of 65,536 elements at least, alike behind them
    2, 0, 0, 1, 0x6C, 1, 0, 0, 0xFF, 0xFF, 0, 1, // a scalar in the last
    0, 0, 0, 0, 0, 0, 0, 0, 1, // a set of one piece
    0, 0, 0, 0, 0, 0, 0, 5, 0, 0, 0, 0, 0, 0, 0, 5, // the integer 5
    0, 0, 0, 0, 0, 0, 0, 0, 0, // no text
    0, 0, 0, 0, 0, 0, 0, 0, 1, // the usual set is the same
    0, 0, 0, 0, 0, 0, 0, 5, 0, 0, 0, 0, 0, 0, 0, 5, //
    0, 0, 0, 0, 0, 0, 0, 0, 0,
];

/// A list at `l`, each element of which is such a list.
const EACH_LAST: &[u8] = &[
    0xFE, 0x43, 0x55, 0x45, 2, 0, 0, 0, 0, 0, 0, 0, 4, // four rows
    0, 0, 2, 0, // the root
    1, 0, 0, 1, 0x6C, 2, 3, // a list at the label l
    0, 0, 0, 0, 0, 0, 0, 0, 0, // of any length, whose elements are alike from the first on
    2, 0, 0, 1, 0x6C, 2, 0, 3, // a list in its rest
    0, 1, 0, 0, 0, 0, 1, 0, 0, // of 65,536 elements at least, alike behind them
    3, 0, 0, 1, 0x6C, 2, 1, 0, 0, 0xFF, 0xFF, 0, 1, // a scalar in the last
    0, 0, 0, 0, 0, 0, 0, 0, 1, // a set of one piece
    0, 0, 0, 0, 0, 0, 0, 5, 0, 0, 0, 0, 0, 0, 0, 5, // the integer 5
    0, 0, 0, 0, 0, 0, 0, 0, 0, // no text
    0, 0, 0, 0, 0, 0, 0, 0, 1, // the usual set is the same
    0, 0, 0, 0, 0, 0, 0, 5, 0, 0, 0, 0, 0, 0, 0, 5, //
    0, 0, 0, 0, 0, 0, 0, 0, 0,
];

/// A list at `l` of 65,536 elements at least, the last of which is a list that begins with 7.
const LAST_BEGINS: &[u8] = &[
    0xFE, 0x43, 0x55, 0x45, 2, 0, 0, 0, 0, 0, 0, 0, 4, // four rows
    0, 0, 2, 0, // the root
    1, 0, 0, 1, 0x6C, 2, 3, // a list at the label l
    0, 1, 0, 0, 0, 0, 1, 0, 0, // of 65,536 elements at least, alike behind them
    2, 0, 0, 1, 0x6C, 1, 0, 0, 0xFF, 0xFF, 0, 3, // a list in the last
    0, 0, 0, 1, 0, 0, 0, 0, 1, // of one element at least
    3, 0, 0, 1, 0x6C, 1, 0, 0, 0xFF, 0xFF, 1, 0, 0, 0, 0, 0, 1, // a scalar in the first
    0, 0, 0, 0, 0, 0, 0, 0, 1, // a set of one piece
    0, 0, 0, 0, 0, 0, 0, 7, 0, 0, 0, 0, 0, 0, 0, 7, // the integer 7
    0, 0, 0, 0, 0, 0, 0, 0, 0, // no text
    0, 0, 0, 0, 0, 0, 0, 0, 1, // the usual set is the same
    0, 0, 0, 0, 0, 0, 0, 7, 0, 0, 0, 0, 0, 0, 0, 7, //
    0, 0, 0, 0, 0, 0, 0, 0, 0,
];

/// Fourteen lists, one in the other, each of nine elements at least that are alike.
const NESTED: &str = "#A: [_, _, _, _, _, _, _, _, _]\n\
    l: [...[...[...[...[...[...[...[...[...[...[...[...[...[...1]\
     & #A] & #A] & #A] & #A] & #A] & #A] & #A] & #A] & #A] & #A] & #A] & #A] & #A] & #A\n";

/// How many bytes the state of a site has that has accepted these inputs.
fn size_of(alloc: Global, inputs: &[Input]) -> Result<u64, Refusal> {
    let site = site(alloc, inputs)?;
    Ok(state_size(&site))
}

/// A list of 65,535 rows of 80 bytes, and those of the root, of the list, of the last element and
/// of the rest; and 65,537 lists, each with 65,537 rows below it.
#[test]
fn elements_that_are_alike(rt: HostRuntime) -> Result<(), Fail> {
    let last = [State(LAST), Text("l: [...int]\n")];
    assert_eq!(rt; size_of(rt.alloc(), &last)?, 5_242_989);
    let each = [
        State(EACH_LAST),
        State(LAST_BEGINS),
        Text("l: [...[...int]]\n"),
    ];
    assert_eq!(rt; size_of(rt.alloc(), &each)?, 365_084_213_375);
    Ok(())
}

/// How many bytes the report of a site has that has accepted these inputs.
fn report_size(alloc: Global, inputs: &[Input]) -> Result<usize, Refusal> {
    let site = site(alloc, inputs)?;
    Ok(report(alloc, &site)?.len())
}

/// 22,876,792,454,961 elements, of none of which anything is told.
#[test]
fn alike_elements_of_which_nothing_is_told(rt: HostRuntime) -> Result<(), Fail> {
    assert_eq!(rt; report_size(rt.alloc(), &[Text(NESTED)])?, 0);
    Ok(())
}
