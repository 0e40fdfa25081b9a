const QUIET: &str =
    "type Quiet\n  effect E <= {}\n  def f(): {E} Int\nresource module ask(q: Quiet): Quiet\n  effect E = {}\n  def f(): {E} Int = q.f()\nprogram\n  run: {}\n    ()\n";

/// Programs that the rules accept: a choice that neither branch's type alone decides; a module that is handed something quiet; and an
/// instance of a type whose member is empty.
pub static ACCEPTED: [&str; 3] = [
    "type A\n  def a(): {} Unit\ntype B\n  def a(): {} Unit\n  def b(): {} Unit\ntype Pick\n  def pick(c: Bool, x: B, y: A): {} A\nresource module pick(): Pick\n  def pick(c: Bool, x: B, y: A): {} A = if c then x else y\nprogram\n  run: {}\n    ()\n",
    QUIET,
    "type Quiet\n  effect E <= {}\n  def f(): {E} Int\ntype Loud\n  effect E\n  def f(): {E} Int\nresource module ask(q: Quiet): Quiet\n  effect E = {}\n  def f(): {E} Int = q.f()\nresource module loud(c: Clock): Quiet\n  effect E = {}\n  def f(): {E} Int = 1\nprogram\n  grant clock: Clock\n  instance l = loud(clock)\n  instance a = ask(l)\n  run: {}\n    ()\n",
];

/// Programs that are refused, the place of the first failing node, and its rule and premise, with the atom that is not within the other
/// set.
pub static REFUSED: [(&str, &str, &str); 4] = [
    (
        "type A\n  def a(): {} Unit\ntype B\n  def a(): {} Unit\n  def b(): {} Unit\ntype Pick\n  def pick(c: Bool, x: B, y: A): {} A\nresource module pick(): Pick\n  def pick(c: Bool, x: B, y: A): {} B = if c then x else y\nprogram\n  run: {}\n    ()\n",
        "9:41",
        "T-If premise 3",
    ),
    (
        "type Quiet\n  effect E\n  def f(): {E} Int\nresource module ask(q: Quiet): Quiet\n  effect E = {}\n  def f(): {E} Int = q.f()\nprogram\n  run: {}\n    ()\n",
        "6:3",
        "T-Body premise 2 lacks q.E",
    ),
    (
        "type Quiet\n  effect E <= {}\n  def f(): {E} Int\nresource module bad(c: Clock): Quiet\n  effect E = {c.Tick}\n  def f(): {E} Int = c.now()\nprogram\n  run: {}\n    ()\n",
        "4:17",
        "M-Ascribe premise 2 lacks c.Tick",
    ),
    (
        "type Quiet\n  effect E <= {}\n  def f(): {E} Int\ntype Loud\n  effect E\n  def f(): {E} Int\nresource module ask(q: Quiet): Quiet\n  effect E = {}\n  def f(): {E} Int = q.f()\nresource module loud(c: Clock): Loud\n  effect E = {c.Tick}\n  def f(): {E} Int = c.now()\nprogram\n  grant clock: Clock\n  instance l = loud(clock)\n  instance a = ask(l)\n  run: {}\n    ()\n",
        "16:12",
        "M-Inst premise 5 lacks l.E",
    ),
];

/// A program with a bounded member, and its report.
pub static REPORTED: (&str, &str) = (QUIET, "authority of main: -\n  run: -\n");
