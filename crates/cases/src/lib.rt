//! Cases worked by hand, as rows of one table, and the theorem that the definitions yield them.

#![tactic(auto)]

ghost use Rattle.cases.specs.Example.{RunOverFive};
ghost use Rattle.cases.specs.Rows.{All, table};

/// Every row of the table holds.
pub fn hand_cases()
    ensures { All table }
{}

/// The law of trays speaks of something: a run over Z_5 with puts, a refused put, a refused close, a take back, a
/// close, a draw and the burn.
pub fn example_run()
    ensures { RunOverFive }
{}
