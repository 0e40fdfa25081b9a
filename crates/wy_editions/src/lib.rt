//! The laws on editions of the language (docs/LANGUAGE.md, "Editions"). No function here does anything: what each says is its
//! clause.
#![tactic(auto)]

ghost use Rattle.wy_editions.specs.Editions.{OldItemsAreAcceptedAlike, OldItemsAreJudgedAlike, OldItemsMeanTheSame};

use wy_meaning::laws::longer_texts_change_nothing_else;
use wy_well_formed::resolved_is_core;

/// States that items in which no name is `FullFolder` are accepted over the four primitive types of the edition before exactly if
/// they are over today's five, with the same authority. It says so within the limits on types and instances, and beyond them.
pub fn old_items_are_judged_alike()
    ensures within { OldItemsAreJudgedAlike }
    ensures beyond { OldItemsAreAcceptedAlike }
{
    resolved_is_core();
}

/// Where no name is `FullFolder` and no answer has a text that is longer than the edition before has them, what the items'
/// program meant there is what it means today, unless it ended there in a text that is too long.
pub fn old_items_mean_the_same()
    ensures { OldItemsMeanTheSame }
{
    resolved_is_core();
    longer_texts_change_nothing_else();
}
