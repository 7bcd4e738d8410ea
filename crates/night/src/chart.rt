//! The settings of a period, slot by slot.
use batch::clearing::Clearing;
use crossbar::setting::Setting;
use policy::Policy;
use std::{fmt, io};

/// Serves the slots of a batch by a policy until everything has left, and prints the setting of each slot. It answers
/// how many slots that took.
pub(crate) fn print<P: Policy>(
    rt: &impl Print,
    batch: &mut Clearing,
    policy: &mut P,
) -> io::Result<u16> {
    let ports = batch.demand().ports().count();
    let slots = batch.slots_left();
    print_heading(rt, ports)?;
    let mut setting = Setting::empty();
    for slot in 1..=slots {
        if batch.demand().largest_load() == 0 {
            return Ok(slot - 1);
        }
        let _reply = batch.slot(policy, &mut setting);
        let row = Row {
            slot,
            ports,
            setting: &setting,
        };
        println!(rt; "{row}")?;
    }
    Ok(slots)
}

fn print_heading(rt: &impl Print, ports: u8) -> io::Result<()> {
    println!(rt; "Slots: the camera that each machine is joined to")?;
    print!(rt; "  machine")?;
    for output in 0..ports {
        print!(rt; " {output:>3}")?;
    }
    println!(rt; "   idle cameras")
}

/// One row: a slot, the input of each output, in order of output, and then the inputs that are joined to none.
#[derive(Clone, Copy)]
struct Row<'a> {
    slot: u16,
    ports: u8,
    setting: &'a Setting,
}

impl fmt::Display for Row<'_> {
    fn fmt<W: fmt::Write>(&self, f: &mut fmt::Formatter<W>) -> fmt::Result {
        let slot = self.slot;
        write!(f, "  {slot:>7}")?;
        self.write_joined(f)?;
        f.write_str("  ")?;
        self.write_idle(f)
    }
}

impl Row<'_> {
    fn write_joined<W: fmt::Write>(&self, f: &mut fmt::Formatter<W>) -> fmt::Result {
        for output in 0..self.ports {
            match self.setting.input_of(output) {
                Some(input) => write!(f, " {input:>3}")?,
                None => f.write_str("   -")?,
            }
        }
        Ok(())
    }

    fn write_idle<W: fmt::Write>(&self, f: &mut fmt::Formatter<W>) -> fmt::Result {
        for input in (0..self.ports).filter(|&input| self.setting.output_of(input).is_none()) {
            write!(f, " {input}")?;
        }
        Ok(())
    }
}
