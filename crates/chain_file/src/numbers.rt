// The numbers of a chain, body 1 of its file.
ghost use Rattle.std.specs.Prelude.{◌≡◌, ℕ, ◌+◌, ◌-◌, ◌*◌, ◌^◌, ◌<◌, ◌≤◌, OnOk};

use crate::part::Part;
use chain::refusal::Refusal;

#[derive(Clone, Copy)]
pub(crate) struct Numbers {
    pub(crate) states: u32,
    pub(crate) rates: u32,
    pub(crate) unit: u32,
    pub(crate) start: u32,
    ghost few: { states ≤ 4096 },
    ghost named: { rates ≤ 4 },
}

impl Numbers {
    ghost use Rattle.chain_format.specs.Format.{version1, numbers};
    ghost use Rattle.chain_file.specs.Known.{numbers_of};
    ghost use Rattle.chain_file.specs.Parts.{part_of, answer_by};

    pub(crate) fn read(part: &mut Part) -> Result<Numbers, Refusal>
        requires { part.old.at < 100 }
        ensures answer { numbers version1 (part_of part.old) part.old.at ≡ answer_by numbers_of result part.new.at }
        ensures place { OnOk result (part.new.at ≡ part.old.at + 7) }
    {
        let states = part.field::<2>(1, 4097)?;
        let rates = part.field::<1>(1, 5)?;
        let unit = part.field::<2>(1, 1001)?;
        let start = part.field::<2>(0, states)?;
        Ok(Numbers {
            states,
            rates,
            unit,
            start,
        })
    }
}
