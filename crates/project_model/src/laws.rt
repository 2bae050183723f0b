//! Laws above the definitions: each function's contract is one, and calling it does nothing.

ghost use Rattle.project_model.specs.Laws.{RulesAreKept, BreachIsFirst, SoundIsBased, PlaceIsFirst, BoundsInNumbers};
ghost use Rattle.project_model.specs.Nesting.{PathsAreFound};
ghost use Rattle.project_model.specs.Nodes.{RanksAreAbove, TableHasRanks};

/// No rule is broken exactly where each has no place at which it is.
pub fn rules_are_kept()
    ensures { RulesAreKept }
{}

/// The breach that is reported is that of the broken rule with the least number.
pub fn breach_is_first()
    ensures { BreachIsFirst }
{}

/// A sound project breaks the rules that its plain parts break, so one that was made of parts that keep the rules
/// passes `check`.
pub fn sound_is_based()
    ensures { SoundIsBased }
{}

/// The place of a broken rule is the first at which it is broken: a composition stands before its layers, and they
/// before the next composition.
pub fn place_is_first()
    ensures { PlaceIsFirst }
{}

/// The bounds are these numbers.
pub fn bounds_in_numbers()
    ensures { BoundsInNumbers }
{}

/// One composition reaches another through those that are nested exactly where there is a path, however long.
pub fn paths_are_found()
    ensures { PathsAreFound }
{}

/// Where no composition reaches itself, the rank of each node is above those of all that it is drawn from: a stack above its layers'
/// last nodes, an effect above its input and the sources of the layers that it names, and a source above the stack it shows.
pub fn ranks_are_above()
    ensures { RanksAreAbove }
{}

/// What the table of a project's ranks says of a node.
pub fn table_has_ranks()
    ensures { TableHasRanks }
{}
