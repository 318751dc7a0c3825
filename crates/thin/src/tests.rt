//! Each entry once, at functions that are written out: what the entries require can be met.
ghost use Rattle.std.specs.Prelude.{◌≡◌, ◌+◌, ◌<◌, ◌≤◌};

use crate::record::{Stepped, enter, enter_block, enter_judged, fill, read};
use crate::table::enter_table;

#[test]
fn fills(rt: HostRuntime) {
    let mut record: u32 = 5;
    fill(|| 7, &mut record);
    assert_eq!(rt; record, 7);
}

#[test]
fn reads(rt: HostRuntime) {
    let record: u32 = 5;
    assert_eq!(rt; read(|r: u32| r / 2, &record), 2);
}

#[test]
fn always_stores(rt: HostRuntime) {
    let mut record: u32 = 5;
    let answer = enter(
        |r: u32, by: u32| Stepped {
            state: r / by.max(1),
            answer: r,
        },
        &mut record,
        2,
    );
    assert_eq!(rt; record, 2);
    assert_eq!(rt; answer, 5);
}

#[test]
fn stores_a_block_that_is_taken(rt: HostRuntime) {
    let mut record: u32 = 5;
    let take = |r: u32, block: &[u8]| {
        if block.len() < 3 {
            Ok(Stepped {
                state: r / 2,
                answer: block.len(),
            })
        } else {
            Err(block.len())
        }
    };
    assert_eq!(rt; enter_block(take, &mut record, &[1, 2, 3]), 3);
    assert_eq!(rt; record, 5);
    assert_eq!(rt; enter_block(take, &mut record, &[1, 2]), 2);
    assert_eq!(rt; record, 2);
}

#[test]
fn stores_what_changes(rt: HostRuntime) {
    let mut record: u32 = 5;
    for (by, left, answered) in [(0, 5, 0), (2, 2, 102)] {
        let answer = enter_judged(
            |r: u32| r,
            |_r: u32, by: u32| by,
            |judgement: u32| if judgement == 0 { Some(0) } else { None },
            |r: u32, judgement: u32| -> u32
                requires { 0 < judgement }
            { r / judgement },
            |_r: u32, step: u32, _judgement: u32| step,
            |step: u32| step.wrapping_add(100),
            &mut record,
            by,
        );
        assert_eq!(rt; record, left);
        assert_eq!(rt; answer, answered);
    }
}

#[test]
fn walks_over_tables(rt: HostRuntime) {
    let mut record: u32 = 5;
    let mut answers = [0u32; 3];
    for (room, code, left, given) in [(1, Err(9), 5, [0, 0, 0]), (3, Ok(4), 3, [5, 102, 0])] {
        let got = enter_table(
            |r: u32| r,
            |_r: u32, calls: usize, cells: usize| {
                if calls <= cells { Ok(4u8) } else { Err(9u8) }
            },
            |_r: u32, by: u32| by,
            |judgement: u32| {
                if judgement < 100 {
                    None
                } else {
                    Some(judgement)
                }
            },
            |r: u32, judgement: u32| Stepped {
                state: r ^ judgement,
                answer: r,
            },
            |step: Stepped<u32, u32>| step.answer,
            |_r: u32, state: u32| state,
            &mut record,
            &[6, 102],
            &mut answers[..room],
        );
        assert_eq!(rt; got, code);
        assert_eq!(rt; record, left);
        assert_eq!(rt; answers, given);
    }
}
