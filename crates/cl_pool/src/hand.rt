//! What a seat knows of the word, and the kinds of step.

use atomic_table::{Join, Play, Split, TableRule};
use std::collections::LinkedList;

/// How many requests a script has, and how many workers may draw their numbers.
#[derive(Clone, Copy, Debug, PartialEq, Eq)]
pub struct Bounds {
    pub requests: u32,
    pub workers: u32,
}

/// What a seat knows. No value of it is ever made.
pub struct Hand {
    /// The bounds of its word.
    pub of: Bounds,
    /// The numbers that were drawn by it, and by the seats that it took in.
    pub drawn: LinkedList<u64>,
    /// How many seats it stands for.
    pub parts: u64,
    /// How many more seats may be split off.
    pub splits: u64,
}

/// The rule of the word.
pub struct Rule;

impl TableRule<(), Hand, Bounds> for Rule {
    ghost use Rattle.cl_pool.specs.Numbers.{Drawn, first_hand};

    ghost holds = { Drawn };

    ghost first = { first_hand };
}

/// A number is drawn.
pub struct Draw;

impl Play<(), Hand> for Draw {
    ghost use Rattle.cl_pool.specs.Numbers.{PlaysDraw};

    ghost then = { PlaysDraw };
}

/// The word is looked at.
pub struct Look;

impl Play<(), Hand> for Look {
    ghost use Rattle.cl_pool.specs.Numbers.{PlaysLook};

    ghost then = { PlaysLook };
}

/// A seat is split off.
pub struct Cut;

impl Split<Hand> for Cut {
    ghost use Rattle.cl_pool.specs.Numbers.{one_split_less, new_hand};

    ghost left = { one_split_less };

    ghost right = { new_hand };
}

/// A seat takes another in.
pub struct Both;

impl Join<Hand> for Both {
    ghost use Rattle.cl_pool.specs.Numbers.{both, spent};

    ghost both = { both };

    ghost spent = { spent };
}
