// The retrieval model: definitions in specs/, theorems in proofs/. Its one type is the start rule, with the number that a sheet has for it.
#![tactic(auto)]

ghost use Rattle.std.specs.Prelude.{◌≡◌};
ghost use Rattle.model.specs.Rule.{rule_number, Numbered};

// When a disk starts: at the sum of delay and load, or at the larger of the two.
#[derive(Clone, Copy, Debug, PartialEq, Eq)]
pub enum Rule {
    Sum,
    Larger,
}

// A number that is no rule's.
#[derive(Clone, Copy, Debug, PartialEq, Eq)]
pub struct NoRule;

// The number of a rule.
impl From<Rule> for u32 {
    ghost from_gives = { λ r n. n ≡ rule_number r };

    fn from(rule: Rule) -> u32 {
        match rule {
            Rule::Sum => 1,
            Rule::Larger => 2,
        }
    }
}

// The rule of a number.
impl TryFrom<u32> for Rule {
    type Error = NoRule;

    ghost try_from_gives = { Numbered };

    fn try_from(number: u32) -> Result<Rule, NoRule> {
        match number {
            1 => Ok(Rule::Sum),
            2 => Ok(Rule::Larger),
            _ => Err(NoRule),
        }
    }
}
