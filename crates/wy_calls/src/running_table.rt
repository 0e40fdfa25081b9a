/// A row: the words, the files, the number of the status, what is reported, and how many operations the console was asked
/// for.
pub type Row = (
    &'static [&'static str],
    &'static [(&'static str, &'static str)],
    u8,
    &'static str,
    usize,
);

const EMPTY: &[(&str, &str)] = &[("a.wy", "program\n  run: {}\n    ()\n")];

pub const HELLO: &[(&str, &str)] = &[(
    "b.wy",
    "program\n  grant console: Console\n  run: {console.Out}\n    console.write(\"hello\\n\")\n",
)];

pub const DEEP: &[(&str, &str)] = &[(
    "deep.wy",
    "type Loop\n  def go(): {} Unit\nresource module loop(): Loop\n  def go(): {} Unit = this.go()\nprogram\n  grant console: Console\n  instance l = loop()\n  run: {console.Out}\n    console.write(\"s\")\n    l.go()\n",
)];

/// Programs that run, with the console alone.
pub static RUNS: [Row; 13] = [
    (
        &["run", "a.wy"],
        EMPTY,
        0,
        "authority of main: -\n  run: -\n",
        0,
    ),
    (
        &["run", "b.wy"],
        HELLO,
        0,
        "authority of main: console.Out\n  run: console.Out\n",
        1,
    ),
    (
        &["run", "--steps", "2", "a.wy"],
        EMPTY,
        0,
        "authority of main: -\n  run: -\n",
        0,
    ),
    (
        &["run", "--steps", "1", "a.wy"],
        EMPTY,
        8,
        "authority of main: -\n  run: -\nspent: 1\n",
        0,
    ),
    (
        &["run", "--steps", "0", "a.wy"],
        EMPTY,
        8,
        "authority of main: -\n  run: -\nspent: 0\n",
        0,
    ),
    (
        &["run", "--depth", "0", "deep.wy"],
        DEEP,
        7,
        "authority of l: -\n  init: -\n  go: -\nauthority of main: console.Out\n  run: console.Out\ntoo deep: 0\n",
        1,
    ),
    (
        &["run", "--depth", "1", "deep.wy"],
        DEEP,
        7,
        "authority of l: -\n  init: -\n  go: -\nauthority of main: console.Out\n  run: console.Out\ntoo deep: 1\n",
        1,
    ),
    (
        &["run", "deep.wy"],
        DEEP,
        7,
        "authority of l: -\n  init: -\n  go: -\nauthority of main: console.Out\n  run: console.Out\ntoo deep: 10000\n",
        1,
    ),
    (
        &["run", "--depth", "100000", "deep.wy"],
        DEEP,
        7,
        "authority of l: -\n  init: -\n  go: -\nauthority of main: console.Out\n  run: console.Out\ntoo deep: 100000\n",
        1,
    ),
    (
        &["run", "o.wy"],
        &[(
            "o.wy",
            "program\n  grant console: Console\n  run: {console.Out}\n    console.write(\"a\")\n    val q = -9223372036854775808 / -1\n    console.write(\"b\")\n",
        )],
        6,
        "authority of main: console.Out\n  run: console.Out\no.wy:5:34: trap: Overflow\n",
        1,
    ),
    (
        &["run", "o.wy"],
        &[(
            "o.wy",
            "program\n  grant console: Console\n  run: {console.Out}\n    console.write(\"a\")\n    val q = 1 / 0\n    console.write(\"b\")\n",
        )],
        6,
        "authority of main: console.Out\n  run: console.Out\no.wy:5:15: trap: ZeroDivisor\n",
        1,
    ),
    (
        &["run", "o.wy"],
        &[(
            "o.wy",
            "program\n  grant console: Console\n  run: {console.Out}\n    console.write(\"a\")\n    val q = -9223372036854775808 % -1\n    console.write(\"b\")\n",
        )],
        0,
        "authority of main: console.Out\n  run: console.Out\n",
        2,
    ),
    (
        &["run", "pick.wy"],
        &[(
            "pick.wy",
            "type A\n  def a(): {} Unit\ntype B\n  def a(): {} Unit\n  def b(): {} Unit\ntype Pick\n  def pick(c: Bool, x: B, y: A): {} A\nresource module pick(): Pick\n  def pick(c: Bool, x: B, y: A): {} A = if c then x else y\nprogram\n  run: {}\n    ()\n",
        )],
        0,
        "authority of main: -\n  run: -\n",
        0,
    ),
];

/// Programs that are refused, of which nothing is run or reported but the last line.
pub static REFUSED: [Row; 3] = [
    (
        &["run", "two.wy"],
        &[(
            "two.wy",
            "type Two\n  effect E\n  def f(): {E} Unit\nresource module two(p: Two, q: Two): Two\n  effect E = {p.E}\n  def f(): {E} Unit = q.f()\nresource module one(): Two\n  effect E = {}\n  def f(): {E} Unit = ()\nprogram\n  instance a = one()\n  instance b = two(a, a)\n  run: {}\n    ()\n",
        )],
        4,
        "two.wy:6:3: refused: T-Body premise 2 lacks q.E\n",
        0,
    ),
    (
        &["run", "f.wy"],
        &[(
            "f.wy",
            "program   // x\n     run:{}\n         ( ( 1 + 2 ) : Int )\n",
        )],
        4,
        "f.wy:2:6: refused: T-Body premise 1\n",
        0,
    ),
    (
        &["run", "pick.wy"],
        &[(
            "pick.wy",
            "type A\n  def a(): {} Unit\ntype B\n  def a(): {} Unit\n  def b(): {} Unit\ntype Pick\n  def pick(c: Bool, x: B, y: A): {} A\nresource module pick(): Pick\n  def pick(c: Bool, x: B, y: A): {} B = if c then x else y\nprogram\n  run: {}\n    ()\n",
        )],
        4,
        "pick.wy:9:41: refused: T-If premise 3\n",
        0,
    ),
];
