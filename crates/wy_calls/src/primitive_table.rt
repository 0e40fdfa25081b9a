use crate::devices::{BLANK, Part, Row};

/// A console whose second read fails, behind a first that gave its line.
pub static CONSOLES: [Row; 1] = [Row {
    words: &["run", "c.wy"],
    files: &[(
        "c.wy",
        r#"program
  grant console: Console
  run: {console.In, console.Out}
    console.write(console.read())
    console.write(console.read())
    console.write(console.read())
"#,
    )],
    input: "a\nb",
    failing: Some((Part::Console, 3)),
    number: 9,
    report: "authority of main: console.In, console.Out
  run: console.In, console.Out
",
    last: "console.read: failed\n",
    console: r#"deed console.read() = "a\n"
deed console.write("a\n") = ()
deed console.read() = failed
"#,
    ..BLANK
}];

const REMOVES: Row = Row {
    words: &["run", "full.wy"],
    files: &[(
        "full.wy",
        r#"program
  grant disk: FullFolder
  run: {disk.Write, disk.Remove}
    disk.write("x", "1")
    disk.remove("x")
    disk.remove("x")
"#,
    )],
    report: "authority of main: disk.Write, disk.Remove\n  run: disk.Write, disk.Remove\n",
    ..BLANK
};

/// A full folder can remove what it keeps, and removing what is not there does nothing; removing is an effect of its own.
pub static FULL_FOLDERS: [Row; 3] = [
    Row {
        folder: r#"deed disk.write("x", "1") = ()
deed disk.remove("x") = ()
deed disk.remove("x") = ()
"#,
        after: &[("disk", "x", "")],
        ..REMOVES
    },
    Row {
        before: &[("disk", "y", "2"), ("other", "x", "3")],
        failing: Some((Part::Folder, 2)),
        number: 9,
        last: "disk.remove: failed\n",
        folder: r#"deed disk.write("x", "1") = ()
deed disk.remove("x") = failed
"#,
        after: &[("disk", "x", "1"), ("disk", "y", "2"), ("other", "x", "3")],
        ..REMOVES
    },
    Row {
        files: &[(
            "full.wy",
            r#"program
  grant disk: FullFolder
  run: {disk.Write}
    disk.write("x", "1")
    disk.remove("x")
    disk.remove("x")
"#,
        )],
        number: 4,
        report: "",
        last: "full.wy:3:3: refused: T-Body premise 2 lacks disk.Remove\n",
        ..REMOVES
    },
];

/// A name that leads out of its folder traps before the folder is asked.
pub static NAMES: [Row; 1] = [Row {
    words: &["run", "n.wy"],
    files: &[(
        "n.wy",
        r#"program
  grant disk: Folder
  run: {disk.Read}
    val t = disk.read("../x")
    ()
"#,
    )],
    number: 6,
    report: "authority of main: disk.Read\n  run: disk.Read\n",
    last: "n.wy:4:18: trap: BadName\n",
    ..BLANK
}];

pub const ORDERED: Row = Row {
    words: &["run", "ord.wy"],
    files: &[(
        "ord.wy",
        r#"type Out
  effect E
  def put(n: Int): {E} Unit
type Get
  effect E
  def get(): {E} Out[E = {E}]
resource module get(c: Console): Get
  effect E = {c.Out}
  def get(): {E} Out[E = {E}]
    c.write("1")
    new
      def put(n: Int): {E} Unit = c.write(text_show(n))
program
  grant console: Console
  grant clock: Clock
  instance g = get(console)
  run: {g.E, clock.Tick}
    g.get().put(clock.now())
"#,
    )],
    time: 7,
    report: "authority of g: console.Out
  init: -
  get: console.Out
  new1.put: console.Out
authority of main: console.Out, clock.Tick
  run: console.Out, clock.Tick
",
    ..BLANK
};

/// The receiver of a call comes before its argument, and both before the call.
pub static ORDERS: [Row; 3] = [
    Row {
        console: r#"deed console.write("1") = ()
deed console.write("7") = ()
"#,
        clock: "deed clock.now() = 7\n",
        ..ORDERED
    },
    Row {
        failing: Some((Part::Console, 1)),
        number: 9,
        last: "console.write: failed\n",
        console: "deed console.write(\"1\") = failed\n",
        ..ORDERED
    },
    Row {
        failing: Some((Part::Clock, 1)),
        number: 9,
        last: "clock.now: failed\n",
        console: "deed console.write(\"1\") = ()\n",
        clock: "deed clock.now() = failed\n",
        ..ORDERED
    },
];

const TWO_CLOCKS: Row = Row {
    words: &["run", "c.wy"],
    files: &[(
        "c.wy",
        r#"program
  grant a: Clock
  grant b: Clock
  grant console: Console
  run: {a.Tick, b.Tick, console.Out}
    val first = a.now()
    val second = b.now()
    console.write(text_show(second - first))
"#,
    )],
    time: 1000,
    report: "authority of main: a.Tick, b.Tick, console.Out
  run: a.Tick, b.Tick, console.Out
",
    ..BLANK
};

/// A clock gives its start and a second for each earlier call, up to the greatest Int, to all grants and instances that ask
/// it.
pub static CLOCKS: [Row; 5] = [
    Row {
        console: "deed console.write(\"1\") = ()\n",
        clock: "deed a.now() = 1000\ndeed b.now() = 1001\n",
        ..TWO_CLOCKS
    },
    Row {
        time: -1,
        console: "deed console.write(\"1\") = ()\n",
        clock: "deed a.now() = -1\ndeed b.now() = 0\n",
        ..TWO_CLOCKS
    },
    Row {
        time: i64::MAX,
        console: "deed console.write(\"0\") = ()\n",
        clock: "deed a.now() = 9223372036854775807\ndeed b.now() = 9223372036854775807\n",
        ..TWO_CLOCKS
    },
    Row {
        failing: Some((Part::Clock, 2)),
        number: 9,
        last: "b.now: failed\n",
        clock: "deed a.now() = 1000\ndeed b.now() = failed\n",
        ..TWO_CLOCKS
    },
    Row {
        words: &["run", "stamp.wy", "s.wy"],
        files: &[
            (
                "stamp.wy",
                r#"type Stamp
  effect E
  def since(): {E} Int
resource module stamp(c: Clock): Stamp
  effect E = {c.Tick}
  init: {c.Tick}
  val start: Int = c.now()
  def since(): {E} Int = c.now() - start
"#,
            ),
            (
                "s.wy",
                r#"program
  grant clock: Clock
  grant console: Console
  instance s = stamp(clock)
  run: {s.E, console.Out}
    console.write(text_show(s.since()))
"#,
            ),
        ],
        time: 40,
        report: "authority of s: clock.Tick
  init: clock.Tick
  since: clock.Tick
authority of main: clock.Tick, console.Out
  run: clock.Tick, console.Out
",
        console: "deed console.write(\"1\") = ()\n",
        clock: "deed clock.now() = 40\ndeed clock.now() = 41\n",
        ..BLANK
    },
];

const DRAWS: Row = Row {
    words: &["run", "d.wy"],
    files: &[(
        "d.wy",
        r#"program
  grant dice: Random
  grant console: Console
  run: {dice.Draw, console.Out}
    console.write(text_show(dice.word()))
    console.write(text_show(dice.word()))
    console.write(text_show(dice.word()))
"#,
    )],
    numbers: &[3, i64::MIN],
    report: "authority of main: dice.Draw, console.Out
  run: dice.Draw, console.Out
",
    console: r#"deed console.write("3") = ()
deed console.write("-9223372036854775808") = ()
deed console.write("3") = ()
"#,
    random: "deed dice.word() = 3
deed dice.word() = -9223372036854775808
deed dice.word() = 3
",
    ..BLANK
};

const QUOTIENT: Row = Row {
    words: &["run", "q.wy"],
    files: &[(
        "q.wy",
        r#"program
  grant dice: Random
  run: {dice.Draw}
    val q = dice.word() / dice.word()
    ()
"#,
    )],
    number: 6,
    report: "authority of main: dice.Draw\n  run: dice.Draw\n",
    ..BLANK
};

/// A random source gives any Int, at no cost of depth; what its numbers trap, traps after both were drawn.
pub static RANDOM_SOURCES: [Row; 6] = [
    DRAWS,
    Row {
        words: &["run", "--depth", "0", "d.wy"],
        ..DRAWS
    },
    Row {
        numbers: &[],
        console: r#"deed console.write("0") = ()
deed console.write("0") = ()
deed console.write("0") = ()
"#,
        random: "deed dice.word() = 0\ndeed dice.word() = 0\ndeed dice.word() = 0\n",
        ..DRAWS
    },
    Row {
        failing: Some((Part::Random, 2)),
        number: 9,
        last: "dice.word: failed\n",
        console: "deed console.write(\"3\") = ()\n",
        random: "deed dice.word() = 3\ndeed dice.word() = failed\n",
        ..DRAWS
    },
    Row {
        numbers: &[1, 0],
        last: "q.wy:4:25: trap: ZeroDivisor\n",
        random: "deed dice.word() = 1\ndeed dice.word() = 0\n",
        ..QUOTIENT
    },
    Row {
        numbers: &[i64::MIN, -1],
        last: "q.wy:4:25: trap: Overflow\n",
        random: "deed dice.word() = -9223372036854775808\ndeed dice.word() = -1\n",
        ..QUOTIENT
    },
];
