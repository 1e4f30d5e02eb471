// A deck with the two rows of a small job.
ghost use Rattle.std.specs.Prelude.{◌≡◌, false};
ghost use Rattle.ring_tests.specs.Deck.{two_rows};

use crate::deal::is_row;
use pr_base::Deal;
use ring_lanes::{Deck, Source};
use std::process::Abort;

/// The two rows of a small job, packed in frames of five bytes.
#[derive(Drop)]
struct TwoRows;

impl Deal for TwoRows {
    ghost rows = { λ _. two_rows };

    ghost size = { λ _. 5 };

    fn total(&self) -> u64 {
        2
    }

    fn row_len(&self) -> usize {
        5
    }
}

#[test]
fn hands_out_each_row_as_often_as_asked(rt: HostRuntime) {
    let deal = TwoRows;
    let mut deck = Deck::open(rt.alloc(), &deal).expect(&rt, "memory");
    hand_out(&rt, &mut deck);
}

// Takes the second row twice.
fn hand_out(rt: &impl Abort, deck: &mut Deck<'_, TwoRows>)
    requires { deck.old ≡ record { rows = two_rows; put = 0; there = false; out = false } }
{
    deck.put(&[3, 0, 1, 0xAB, 0]);
    let held = deck.take();
    assert!(rt; is_row(&held, 0, &[3, 0, 1, 0xAB, 0], Source::Deck));
    deck.give(held);
    deck.put(&[3, 0, 1, 0x13, 0]);
    for _time in 0..2 {
        let held = deck.take();
        assert!(rt; is_row(&held, 1, &[3, 0, 1, 0x13, 0], Source::Deck));
        deck.give(held);
    }
}

#[test]
fn gives_the_row_behind_a_passed_one(rt: HostRuntime) {
    let deal = TwoRows;
    let mut deck = Deck::open(rt.alloc(), &deal).expect(&rt, "memory");
    pass_first(&rt, &mut deck);
}

// Passes over the first row and takes the second.
fn pass_first(rt: &impl Abort, deck: &mut Deck<'_, TwoRows>)
    requires { deck.old ≡ record { rows = two_rows; put = 0; there = false; out = false } }
{
    deck.pass();
    deck.put(&[3, 0, 1, 0x13, 0]);
    let held = deck.take();
    assert!(rt; is_row(&held, 1, &[3, 0, 1, 0x13, 0], Source::Deck));
    deck.give(held);
}
