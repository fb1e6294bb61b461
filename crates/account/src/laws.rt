//! The laws of a margin and of a book's calls: the contract of a function that does nothing else.
ghost use Rattle.account.specs.ByIsin.{ByIsinLaw};
ghost use Rattle.account.specs.Lines.{IsinsLaw};
ghost use Rattle.account.specs.Rows.{WorstLaw, NoLinesLaw};
ghost use Rattle.account.specs.Joint.{JointBound, CentsBound, JointLaw, SameLinesLaw, CentsLaw, GivenLaw};
ghost use Rattle.account.specs.Checks.{EnterLaw, WithdrawLaw, MarginAnswerLaw};
ghost use Rattle.account.specs.History.{HistoryLaw};

/// Each law is proved of the definitions.
pub fn laws_stand()
    // The ISINs of lines are those that the lines have, in byte order.
    ensures isins_law { IsinsLaw }
    // Lines that stand by ISIN are the same lines, those of each ISIN together and in their order.
    ensures by_isin_law { ByIsinLaw }
    // A trade row is the worst of its scenarios, and of equal charges the one of the lowest number.
    ensures worst_law { WorstLaw }
    // Where there are no lines, nothing is charged.
    ensures no_lines_law { NoLinesLaw }
    // The margin of a joint book is at most the two margins added.
    ensures joint_bound { JointBound }
    // The margin is never below the exact one, and above it by at most one cent for each rounded
    // amount.
    ensures cents_bound { CentsBound }
    // The first bound, of the margins that books are answered.
    ensures joint_law { JointLaw }
    // Books with the same lines are answered the same margin.
    ensures same_lines_law { SameLinesLaw }
    // The second bound, of the margin that a book is answered, and of one that is given.
    ensures cents_law { CentsLaw }
    ensures given_law { GivenLaw }
    // When a line is entered, when it is withdrawn and when a margin is given, and else with which
    // number the call is refused.
    ensures enter_law { EnterLaw }
    ensures withdraw_law { WithdrawLaw }
    ensures margin_answer_law { MarginAnswerLaw }
    // Both bounds, and which lines stand, over any list of calls that are answered as is due.
    ensures history_law { HistoryLaw }
{}
