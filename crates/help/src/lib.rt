// What `arborstitch -h` and `--version` print.
#![tactic(auto)]

use outputs::say;
use std::io::{Result, Write};

fn print_usage(to: &mut impl Write) -> Result<()> {
    say(
        to,
        b"usage: arborstitch [OPTION ...] FILE ...              flatten the FILEs, in order, as one text\n",
    )?;
    say(
        to,
        b"       arborstitch pass [OPTION ...] FILE ...         do the macros that they leave pass?\n",
    )?;
    say(
        to,
        b"       arborstitch lookup NAME [OPTION ...] FILE ...  show a macro that they leave\n",
    )?;
    say(
        to,
        b"       arborstitch words [--set SET] FILE             list the words of a text\n",
    )?;
    say(
        to,
        b"\nFILE - is standard input. `ifdef, `ifndef and `elsif take a name or a condition:\n",
    )?;
    say(
        to,
        b"`ifdef (FAST && !(WIDE || SPARE)), with ! && || -> <-> and parentheses.\n\n",
    )
}

fn print_inputs(to: &mut impl Write) -> Result<()> {
    say(
        to,
        b"  -D NAME[=VALUE]  define a macro at the start (also -DNAME, +define+NAME=VALUE+NAME..)\n",
    )?;
    say(
        to,
        b"  -I DIR           seek what `include names there too (also +incdir+DIR+DIR..); \"n\" is sought in the\n",
    )?;
    say(to, b"                   current folder first\n")?;
    say(
        to,
        b"  --include FILE   a file that `include \"FILE\" may name; it comes before those that are sought\n",
    )?;
    say(to, b"  --angle FILE     the same for `include <FILE>\n")?;
    say(
        to,
        b"  --strip DIR      drop the leading folder DIR from the names of the files that follow\n",
    )?;
    say(
        to,
        b"  -f LIST          take options and files from LIST; // and # begin comments there\n",
    )?;
    say(
        to,
        b"  --set SET        keyword set at the start: 1364-1995, 1364-2001, 1364-2005, 1800-2005 (the default)\n",
    )?;
    say(
        to,
        b"  --limit N        at most N macro replacements (the default: 100000)\n",
    )?;
    say(to, b"  --               only files follow\n")
}

fn print_outputs(to: &mut impl Write) -> Result<()> {
    say(
        to,
        b"  -o FILE          write the flat text there, not to standard output (-)\n",
    )?;
    say(
        to,
        b"  -m FILE          write the line map: for each line of the text its number, file, line\n",
    )?;
    say(
        to,
        b"  -w FILE          write the words of the text: offset, length, 1 if reserved, word\n",
    )?;
    say(
        to,
        b"  -MD FILE         write a rule for make: the -o file and the files that it is made from\n",
    )?;
    say(
        to,
        b"  --lines          put `line marks into the text, so that a tool names your own lines\n",
    )?;
    say(
        to,
        b"  --defines        write the macros that stand at the end, as `define lines, not the text\n",
    )?;
    say(to, b"  --no-warnings    no warnings\n")?;
    say(
        to,
        b"  --strict         a warning is a failure: status 1, no outputs\n",
    )?;
    say(to, b"  -q               no summary on standard error\n")?;
    say(to, b"  -h, --version    this help; the version\n")
}

fn print_limits(to: &mut impl Write) -> Result<()> {
    say(
        to,
        b"\nLimits: 64 files of 65,535 bytes, with their paths 1,048,576 in all (words: one text of that size);\n",
    )?;
    say(
        to,
        b"flat text 2,097,152 bytes in 131,072 lines; 131,072 words; 256 macros in 65,536 bytes; a command line,\n",
    )?;
    say(to, b"with its lists, of 4,096 words and 131,072 bytes.\n")?;
    say(
        to,
        b"Exit status: 0 done; 1 refused (or no pass, NAME not defined, a warning with --strict); 2 bad usage, or a\n",
    )?;
    say(
        to,
        b"file that cannot be read or written. Outputs are written whole, after all succeeded. A run that fails gives\n",
    )?;
    say(
        to,
        b"old outputs that it names .stale names, so that none stands; bad usage touches nothing.\n",
    )
}

pub fn print_help(to: &mut impl Write) -> Result<()> {
    print_usage(to)?;
    print_inputs(to)?;
    print_outputs(to)?;
    print_limits(to)
}

pub fn print_version(to: &mut impl Write) -> Result<()> {
    say(to, b"arborstitch 1.1.0\n")
}
