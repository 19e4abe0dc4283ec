ghost use Rattle.std.specs.Prelude.{Option, None};
ghost use Rattle.cl_model.specs.Content.{Content};

use std::marker::Brand;

/// Names what a source tells. It has no function: its meaning is its ghost member.
pub trait Told {
    /// The content that the source tells, or that it tells none.
    ghost told: { Option Content };
}

impl Told for Brand {
    ghost told = { None };
}

/// The naming of sources that tell nothing, such as a directory.
#[derive(Clone, Copy, Debug)]
pub struct Untold;

impl Told for Untold {
    ghost told = { None };
}
