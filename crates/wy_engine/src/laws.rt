//! Laws of the definitions of this crate. These functions do nothing at run time; each states a theorem in its contract.

ghost use Rattle.wy_engine.specs.CertifiedProved.{CertifiedIsProved};
ghost use Rattle.wy_engine.specs.Completeness.{AcceptedTextsEnd};
ghost use Rattle.wy_engine.specs.FormatAgain.{FormatAgain};
ghost use Rattle.wy_engine.specs.Given.{TextsAreTold};
ghost use Rattle.wy_engine.specs.MarkFiles.{MarksAreInFiles};
ghost use Rattle.wy_engine.specs.OldTexts.{OldTextsAreAcceptedAlike, OldTextsAreJudgedAlike, OldTextsMeanTheSame, ReportedArePassed};
ghost use Rattle.wy_engine.specs.ProgramLaws.{AcceptedRunAsMeant};
ghost use Rattle.wy_engine.specs.Told.{RunsAreTold};
ghost use Rattle.wy_engine.specs.ValsInOrder.{ValsStandInOrder};

use wy_canonical::trees_have_words;
use wy_certify::{certificates_have_one_size, certificates_prove};
use wy_code::laws::spent_takes_all;
use wy_editions::{old_items_are_judged_alike, old_items_mean_the_same};
use wy_layout::laws::tokens_name_their_file;
use wy_lower::laws::{accepted_code_follows, accepted_is_never_stuck, marks_are_of_the_program};
use wy_meaning::laws::{answers_are_taken_in_order, nodes_cost_four};
use wy_names::laws::marks_are_of_the_items;
use wy_parser::laws::marks_are_of_the_tokens;
use wy_sound::laws::events_are_bounded;
use wy_sound::telling::{allowed_is_reported, instances_are_told, used_is_allowed};
use wy_well_formed::{resolved_is_core, resolved_keeps_all, resolved_vals_are_in_order};

/// States that `format` writes what it wrote again. The canonical form of a file's tree has one tree and prints as the same text,
/// unless it exceeds a limit of layout.
pub fn format_again()
    ensures { FormatAgain }
{}

/// States that the program of accepted texts runs as it is meant. Its code does what the program means and never gets stuck. A run
/// takes at most four steps a node, and the answers in their order. Each operation is in the authority of every call that is open
/// at it, and the report says this authority of the call's body. What was used of an instance is within what the report says of it.
pub fn accepted_run_as_meant()
    ensures { AcceptedRunAsMeant }
{
    resolved_keeps_all();
    trees_have_words();
    accepted_code_follows();
    accepted_is_never_stuck();
    events_are_bounded();
    allowed_is_reported();
    used_is_allowed();
    instances_are_told();
    nodes_cost_four();
    answers_are_taken_in_order();
}

/// States that a call over a shelf that tells its files judges these files. If all of them were read, the call stops with a status
/// exactly if the rules derive it for the files' texts, and otherwise it does what its command asks of them.
pub fn texts_are_told()
    ensures { TextsAreTold }
{
    resolved_is_core();
    certificates_have_one_size();
}

/// States that a run over devices that tell their deeds is one of what they told. Each device that tells its deeds did exactly those
/// of its kind that the program's meaning has over the answers in the run's events. If all devices tell their deeds, the answers are
/// those that the devices gave, and the status is that of this meaning.
pub fn runs_are_told()
    ensures { RunsAreTold }
{
    answers_are_taken_in_order();
}

/// States that a call returns the expected answer unless one of the listed failures happened. Suppose that no part of the outside
/// counted a fault and that no limit is exceeded. Suppose that the bound on steps is at least four for each node that the meaning
/// evaluates, and four more. Then a program that `run`, `trace`, `sample` or `observe` runs ends, traps or goes too deep as its
/// meaning does. Texts that `check`, `authority`, `format`, `policy`, `certify` or `recheck` do not stop end well. Only running out
/// of memory can replace these answers.
pub fn accepted_texts_end()
    ensures { AcceptedTextsEnd }
{
    resolved_is_core();
    certificates_have_one_size();
    accepted_run_as_meant();
    spent_takes_all();
}

/// States that `recheck` accepts everything that `certify` writes: a certificate that is written of an accepted program proves it.
pub fn certified_is_proved()
    ensures { CertifiedIsProved }
{
    resolved_is_core();
    certificates_prove();
}

/// States that the types that checking gives of a scope's `val`s are in the order of the `val`s in the texts. Of two `val`s, the one
/// with the lesser number comes first.
pub fn vals_stand_in_order()
    ensures { ValsStandInOrder }
{
    resolved_vals_are_in_order();
}

/// States that the mark of each instruction of the code of accepted texts is in one of the files, which count from 1.
pub fn marks_are_in_files()
    ensures { MarksAreInFiles }
{
    tokens_name_their_file();
    marks_are_of_the_tokens();
    marks_are_of_the_items();
    marks_are_of_the_program();
}

/// States that texts in which no name is `FullFolder` are accepted, with the same report, in the edition before today's exactly if
/// they are today, which is if they pass. The same holds beyond the limits on types and instances.
pub fn old_texts_are_judged_alike()
    ensures alike { OldTextsAreJudgedAlike }
    ensures beyond { OldTextsAreAcceptedAlike }
    ensures today { ReportedArePassed }
{
    old_items_are_judged_alike();
}

/// States that their program means today what it meant there, over answers whose texts are no longer than that edition allows. The
/// exception is a run that ended there in a text that is too long.
pub fn old_texts_mean_the_same()
    ensures { OldTextsMeanTheSame }
{
    old_items_mean_the_same();
}
