//! Values for which the words of the contracts are false, as laws: a weaker word would hold of them.

ghost use Rattle.bites_theorems.specs.Refutations.{WithinRefuses, NoLaterRefuses, ApartRefuses, EndsRefuse, ParsesRefuse, ChoiceRefuses, RefusalsRefuse};

/// A part that reaches out of its whole does not lie within it.
pub fn within_refuses()
    ensures { WithinRefuses }
{}

/// A later end, or one without the other, is not the soonest.
pub fn no_later_refuses()
    ensures { NoLaterRefuses }
{}

/// Spans that overlap, or that do not grow, do not stand apart.
pub fn apart_refuses()
    ensures { ApartRefuses }
{}

/// An end is the preferred one, or the last one, of one parse alone.
pub fn ends_refuse()
    ensures { EndsRefuse }
{}

/// Groups of two parses, from a later place, or that leave one out are not of one parse.
pub fn parses_refuse()
    ensures { ParsesRefuse }
{}

/// Groups of another parse are neither of the preferred nor of a longest one.
pub fn choice_refuses()
    ensures { ChoiceRefuses }
{}

/// A pattern that is read has no error, and one that is not has one alone.
pub fn refusals_refuse()
    ensures { RefusalsRefuse }
{}
