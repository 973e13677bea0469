// The worked figures of the rules, proved of the definitions that the contracts cite.
#![tactic(auto)]

ghost use Rattle.std.specs.Prelude.{◌≡◌, length};
ghost use Rattle.std.specs.List.{AllByRecursion};
ghost use Rattle.figures.specs.Table.{Holds, table};

// How many figures the table has; each of them holds.
pub fn worked_figures() -> usize
    ensures count { result ≡ length table }
    ensures hold { AllByRecursion Holds table }
{
    18
}
