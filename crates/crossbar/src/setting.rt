//! A setting of the crossbar: which inputs are joined to which outputs.
ghost use Rattle.crossbar.specs.Arrays.{Mirrors, Within};
ghost use Rattle.std.specs.Prelude.{◌≡◌, ◌≤◌, length};

pub mod joining;
pub mod moving;
pub mod pairs;

/// Joins inputs to outputs, of up to 16 each, and no port twice.
///
/// It keeps the input of each output and the output of each input; that these
/// mirror each other is the invariant by which no port is joined twice. Beside them stands a number that every joined
/// port is below, so that nobody looks for pairs from there on.
// Two arrays and no map: either side has sixteen places, and a setting asks for no memory.
#[derive(Clone, Copy)]
pub struct Setting {
    inputs: [Option<u8>; 16],
    outputs: [Option<u8>; 16],
    end: u8,
    ghost sized: { (length inputs ≡ 16) × (length outputs ≡ 16) },
    ghost there: { Mirrors inputs outputs },
    ghost back: { Mirrors outputs inputs },
    ghost few: { end ≤ 16 },
    ghost within: { Within end inputs },
}
