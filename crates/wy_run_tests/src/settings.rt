use std::alloc::Global;
use std::test::Fail;
use wy_settings::{Command, Settings, SettingsRefusal, settings, texts_among};

/// The settings of these words.
fn settings_of(alloc: Global, words: &[&str]) -> Result<Result<Settings, SettingsRefusal>, Fail> {
    let mut strings = Vec::new(alloc);
    for word in words {
        strings.push(String::from_str(alloc, word)?)?;
    }
    Ok(settings(alloc, strings.as_slice()))
}

/// Whether these words have settings with these bounds, and all words behind the first `before` as their files.
fn has_settings(
    alloc: Global,
    words: &[&str],
    steps: u64,
    depth: u32,
    before: usize,
) -> Result<bool, Fail> {
    let Ok(found) = settings_of(alloc, words)? else {
        return Ok(false);
    };
    let line = found.line();
    let mut files = words.iter().skip(before);
    let mut is_same = true;
    for file in line.files {
        is_same = is_same && files.next() == Some(&file.as_str());
    }
    Ok(
        is_same
            && files.next().is_none()
            && line.command == Command::Run
            && line.steps == steps
            && line.depth == depth,
    )
}

#[test]
fn words_have_their_settings(rt: HostRuntime) -> Result<(), Fail> {
    let alloc = rt.alloc();
    assert!(rt; has_settings(alloc, &["run", "a.wy", "-"], 10_000_000, 10_000, 1)?);
    assert!(rt;
        has_settings(
            alloc,
            &["--depth=0", "run", "--steps", "9", "a.wy"],
            9,
            0,
            4
        )?
    );
    assert!(rt;
        has_settings(
            alloc,
            &["run", "--", "--steps", "-b.wy"],
            10_000_000,
            10_000,
            2
        )?
    );
    Ok(())
}

/// Returns whether these words have settings with these folders, each with the name of its grant.
fn has_folders(alloc: Global, words: &[&str], folders: &[(&str, &str)]) -> Result<bool, Fail> {
    let Ok(found) = settings_of(alloc, words)? else {
        return Ok(false);
    };
    let mut rest = folders.iter();
    let mut is_same = true;
    for folder in found.line().folders {
        is_same = is_same && rest.next() == Some(&(folder.grant.as_str(), folder.path.as_str()));
    }
    Ok(is_same && rest.next().is_none())
}

#[test]
fn folders_are_given_for_grants(rt: HostRuntime) -> Result<(), Fail> {
    let alloc = rt.alloc();
    assert!(rt;
        has_folders(
            alloc,
            &["run", "--folder", "disk=a=b", "a.wy", "--folder=été=/c d"],
            &[("disk", "a=b"), ("été", "/c d")]
        )?
    );
    assert!(rt; has_folders(alloc, &["check", "--", "--folder", "disk=x"], &[])?);
    assert!(rt;
        !has_folders(
            alloc,
            &["run", "--folder", "disk=x", "--folder", "disk=y", "a.wy"],
            &[]
        )?
    );
    Ok(())
}

#[test]
fn other_words_have_none(rt: HostRuntime) -> Result<(), Fail> {
    let alloc = rt.alloc();
    assert!(rt; matches!(settings_of(alloc, &[])?, Err(SettingsRefusal::Usage)));
    assert!(rt; matches!(settings_of(alloc, &["run"])?, Err(SettingsRefusal::Usage)));
    assert!(rt;
        matches!(
            settings_of(alloc, &["run", "a.wy", "--steps"])?,
            Err(SettingsRefusal::Usage)
        )
    );
    Ok(())
}

#[test]
fn the_first_file_of_policy_and_recheck_is_no_text(rt: HostRuntime) -> Result<(), Fail> {
    let files = ["a", "b", "c"];
    let behind = texts_among(Command::Policy, files.as_slice());
    assert_eq!(rt; behind, ["b", "c"].as_slice());
    assert_eq!(rt; texts_among(Command::Recheck, files.as_slice()), behind);
    assert_eq!(rt;
        texts_among(Command::Certify, files.as_slice()),
        files.as_slice()
    );
    assert_eq!(rt; texts_among(Command::Policy, behind).len(), 1);
    Ok(())
}
