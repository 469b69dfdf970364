ghost use Rattle.cue_lattice.specs.Question.{SameAnswers};
ghost use Rattle.cue_row.specs.declared.parts.RowParts.{RowParts as Row};
ghost use Rattle.cue_row.specs.Row.{RowRefusesQuestion};
ghost use Rattle.cue_table.specs.Tree.{Tree};
ghost use Rattle.cue_table.specs.Refuses.{TableRefuses};
ghost use Rattle.cue_report.specs.OneReport.{HaveOneReport};

/// There is one report: tables with the same answers have one list of conflicts, one list of gaps
/// and one export.
///
/// It computes nothing: it states a law.
pub fn one_report()
    ensures { (a b : Tree Row) → SameAnswers (TableRefuses RowRefusesQuestion a) (TableRefuses RowRefusesQuestion b)
        → HaveOneReport (TableRefuses RowRefusesQuestion a) (TableRefuses RowRefusesQuestion b) }
{}
