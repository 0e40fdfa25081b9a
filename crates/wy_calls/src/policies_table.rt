//! Policies of the program of three files, and what each call says.

/// A policy, the file words of the texts behind it, the number of the status, what is written to `out`, and the last line.
pub type Judged = (
    &'static str,
    &'static [&'static str],
    u8,
    &'static str,
    &'static str,
);

const ALL: &[&str] = &["types.wy", "parts.wy", "main.wy"];

/// A policy that allows the program, and one that denies something of it.
pub static JUDGED: [Judged; 2] = [
    (
        "pure *: -\nlg: logs.Append\nrep: data.*, console.Out, logs.Append\nmain: data.*, console.Out, logs.Append\n",
        ALL,
        0,
        "allowed\n",
        "",
    ),
    (
        "pure *: -\nlg: logs.Append\nrep: data.*, logs.Append\nmain: data.*, console.Out, logs.Append\n",
        ALL,
        16,
        "",
        "p.pol:3: denied: rep console.Out\n",
    ),
];
