ghost use Rattle.std.specs.Prelude.{◌≡◌, ◌≤◌, length, map, string_bytes, true, IsFalse, IsTrue};
ghost use Rattle.wy_device.specs.Devices.{IsInOrder};
ghost use Rattle.wy_machine.specs.Devices.{states};
ghost use Rattle.wy_syntax.specs.Views.{file_tree};
ghost use Rattle.wy_settings.specs.Settings.{settings_of_line, takes, texts_among};
ghost use Rattle.wy_engine.specs.Answering.{Answered};
ghost use Rattle.wy_engine.specs.Certificates.{HasLargeCertificate, HasNoLargeCertificate};
ghost use Rattle.wy_engine.specs.FileTrees.{HaveTrees};
ghost use Rattle.wy_engine.specs.Judgement.{HasFirst, IsNumbered, RunsPrograms, running};

use crate::certifying::{certify_trees, recheck_trees};
use crate::checking::{check_trees, report_trees};
use crate::formatting::write_form;
use crate::parsing::parse_all;
use crate::permitting::permit_trees;
use crate::running::{Manner, Mode, run_trees};
use crate::status::Status;
use std::alloc::Global;
use wy_device::device::Device;
use wy_machine::devices::Devices;
use wy_settings::{Command, CommandLine, sample_number, texts_among};
use wy_syntax::items::Tree;
use wy_text::limit::LimitName;
use wy_text::sink::Sink;
use wy_text::text::Text;

/// Returns the way in which a command runs programs.
fn way_of(command: Command, files: &[String]) -> Mode
    requires { takes command (map string_bytes files.now) ≡ true }
    ensures numbered { IsNumbered result (map string_bytes files.now) }
    ensures runs { RunsPrograms command → command ≡ running result }
{
    match command {
        Command::Trace => Mode::Traced,
        Command::Observe => Mode::Observed,
        Command::Sample => match sample_number(files) {
            Some(number) => Mode::Summed(number),
            None => unreachable!(),
        },
        _ => Mode::Silent,
    }
}

/// Returns whether the first file of a command must be a certificate and has more bytes than one may have. It takes no memory.
fn has_large_certificate(command: Command, files: &[Text]) -> bool
    ensures large { IsTrue result → (command ≡ Command.Recheck) × HasLargeCertificate files.now }
    ensures none { IsFalse result → HasNoLargeCertificate command files.now }
{
    match (command, files.split_first()) {
        (Command::Recheck, Some((certificate, _texts))) => {
            certificate.as_bytes().len() as u64 > LimitName::CertificateBytes.number()
        }
        _ => false,
    }
}

/// Does with the trees of texts what a command asks, and returns the status. It checks their program, reports what it may do, or runs
/// it. It checks it against a policy or a certificate, which is the first text. It writes a certificate, or the canonical form of the
/// one tree.
fn answer_trees<O: Sink, E: Sink, D: Device>(
    alloc: Global,
    asked: CommandLine<'_>,
    texts: &[Text],
    trees: &[Tree],
    out: &mut O,
    report: &mut E,
    devices: &mut Devices<D>,
) -> Status
    requires fits { takes asked.command (map string_bytes asked.files.now) ≡ true }
    requires one { asked.command ≡ Command.Format → length texts.now ≡ 1 }
    requires some { HasFirst asked.command → 1 ≤ length texts.now }
    requires none { HasNoLargeCertificate asked.command texts.now }
    requires trees { HaveTrees 1 (texts_among asked.command texts.now) (map file_tree trees.now) }
    requires in_order { IsInOrder (states D.state devices.old) }
    ensures { Answered (settings_of_line asked.entry) texts.now (O.state out.old) (O.state out.new) (E.state report.old) (E.state report.new) (states D.state devices.old) (states D.state devices.new) result }
{
    let manner = Manner {
        way: way_of(asked.command, asked.files),
        steps: asked.steps,
        depth: asked.depth,
        folders: asked.folders,
    };
    match asked.command {
        Command::Check => check_trees(alloc, trees, out),
        Command::Authority => report_trees(alloc, trees, out),
        Command::Run => run_trees(alloc, trees, manner, out, report, devices),
        Command::Trace => run_trees(alloc, trees, manner, out, report, devices),
        Command::Observe => run_trees(alloc, trees, manner, out, report, devices),
        Command::Sample => run_trees(alloc, trees, manner, out, report, devices),
        Command::Format => write_form(alloc, &trees[0], out),
        Command::Policy => permit_trees(alloc, trees, texts[0].as_bytes(), out),
        Command::Certify => certify_trees(alloc, trees, out),
        Command::Recheck => recheck_trees(alloc, trees, texts[0].as_bytes(), out),
    }
}

/// Parses texts, does with them what a command asks, and returns the status. It checks their program, reports what it may do, or runs
/// it. It checks it against a policy or a certificate, which is the first text. It writes a certificate, or the canonical form of the
/// one text.
pub fn answer<O: Sink, E: Sink, D: Device>(
    alloc: Global,
    asked: CommandLine<'_>,
    texts: &[Text],
    out: &mut O,
    report: &mut E,
    devices: &mut Devices<D>,
) -> Status
    requires few { length texts.now ≤ 64 }
    requires fits { takes asked.command (map string_bytes asked.files.now) ≡ true }
    requires one { asked.command ≡ Command.Format → length texts.now ≡ 1 }
    requires some { HasFirst asked.command → 1 ≤ length texts.now }
    requires in_order { IsInOrder (states D.state devices.old) }
    ensures { Answered (settings_of_line asked.entry) texts.now (O.state out.old) (O.state out.new) (E.state report.old) (E.state report.new) (states D.state devices.old) (states D.state devices.new) result }
{
    if has_large_certificate(asked.command, texts) {
        return Status::Limit(LimitName::CertificateBytes);
    }
    match parse_all(alloc, texts_among(asked.command, texts)) {
        Ok(trees) => answer_trees(alloc, asked, texts, trees.as_slice(), out, report, devices),
        Err(end) => end,
    }
}
