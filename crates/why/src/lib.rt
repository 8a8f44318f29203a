// Why a plan of a unit reads a block from a disk, or doesn't.
#![tactic(auto)]

ghost use Rattle.std.specs.Prelude.{ℕ, ◌≡◌};
ghost use Rattle.planner.specs.Parts.{case_lent};
ghost use Rattle.reason.specs.Reason.{Reasons};
ghost use Rattle.unit.specs.Request.{asked_of};
ghost use Rattle.unit.specs.Sound.{Sound};
ghost use Rattle.why.specs.Parts.{Asked};
ghost use Rattle.why.specs.Why.{within, Explains, told_why, Explained};

use field::{Fault, Refusal};
use planner::Spelling;
use reason::Reason;
use unit::Unit;

// What the call answers, the reason or the refusal, with the unit afterwards.
#[derive(Clone, Copy)]
pub struct Reasoned {
    pub answer: Result<Reason, Fault>,
    pub unit: Unit,
}

// The reason of a block and a disk of what was asked.
fn lend(said: &Spelling, block: usize, disk: usize) -> Reason
    requires { Asked said.now block disk }
    ensures { Reasons (case_lent said.now) block disk result }
{
    reason::explain(said.copies(), said.costs(), said.starts(), block, disk)
}

// The reason of a block and a disk, or the refusal. `Sound` is a premise, as `Unit` says.
fn answer(u: Unit, sheet: &[u8], block: u32, disk: u32) -> Result<Reason, Fault>
    requires { Sound u }
    ensures { Explains (within (asked_of u sheet.now) block disk) block disk (told_why result) }
{
    let asked = u.ask(sheet);
    // A match that looks at what was asked where it is: `?` moves it.
    let said = match &asked {
        Ok(said) => said,
        Err(e) => return Err(*e),
    };
    if said.blocks <= block as usize || said.disks <= disk as usize {
        return Err(Refusal::BadIndex.at(0));
    }
    Ok(lend(said, block as usize, disk as usize))
}

// Answers why the plan of a request reads a block from a disk, or doesn't, and hands the unit back as it was.
pub fn explain(u: Unit, sheet: &[u8], block: u32, disk: u32) -> Reasoned
    requires { Sound u }
    ensures { Explained u sheet.now block disk result }
{
    Reasoned {
        answer: answer(u, sheet, block, disk),
        unit: u,
    }
}
