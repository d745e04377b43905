// Flags in a row, which go to the output in groups: bit by bit a long extension would be slow.
#![tactic(auto)]

ghost use Rattle.std.specs.Prelude.{◌≤◌, length};
ghost use Rattle.vps_definition.specs.Words.{repeat};
ghost use Rattle.table_steps.specs.Words.{kept_field};
ghost use Rattle.writing.specs.Emits.{Emits};
ghost use Rattle.writing.specs.Groups.{Gathers};

use crate::Writing;
use refusals::Refusal;

// Up to 32 flags as a number, the first of them its highest bit.
#[tactic(auto, using(crate::specs::Groups::flags_other))]
fn gather(flags: &[u32]) -> Result<u32, Refusal>
    requires { length flags.now ≤ 32 }
    ensures { Gathers flags.now result }
{
    let mut value = 0;
    for &flag in flags {
        if 1 < flag {
            return Err(Refusal::NotWellFormed);
        }
        value = 2 * value + flag;
    }
    Ok(value)
}

impl<'a> Writing<'a> {
    // So many flags of the record, from its next number on.
    pub fn flags(&mut self, count: usize) -> Result<(), Refusal>
        ensures { Emits (repeat count (kept_field 1)) self.old result self.new }
    {
        let flags = self.rest().get(..count).ok_or(Refusal::NotWellFormed)?;
        for group in flags.chunks(32) {
            let value = gather(group)?;
            self.push_field(value, group.len() as u32)?;
            self.c += group.len();
        }
        Ok(())
    }
}
