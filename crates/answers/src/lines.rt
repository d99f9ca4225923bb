//! The line that tells an answer.
ghost use Rattle.std.specs.Prelude.{◌≡◌, [], ◌∷◌, ◌++◌, decimal, option_map, IfOk, OnOk};
ghost use Rattle.command_line.specs.Command.{shown};
ghost use Rattle.report.specs.Text.{spaced};
ghost use Rattle.answers.specs.Answer.{line_of, fault_line, trap_line, name_of, elf_words, table_word, image_words, event_words, profile_words, values_words, refusal_words};

use crate::answer::{Answer, Refusal, Source};
use cells::End;
use command_line::Command;
use dist_image::{ImageErr, Table};
use elf_reader::ElfErr;
use event_list::EventErr;
use load_values::ValuesErr;
use profile_data::ProfileErr;
use report::{Word, push_end, push_line, push_words};
use std::alloc::{AllocError, Global};

// The name that a command has for a file, or nothing where it has none.
fn name<'a>(command: Option<Command<'a>>, source: Source) -> &'a str
    ensures { result.now ≡ name_of (option_map shown command.entry) source }
{
    match (command, source) {
        (Some(Command::Run(run)), Source::Program) => run.program,
        (Some(Command::Run(run)), Source::Image) => run.image.unwrap_or(""),
        (Some(Command::Run(run)), Source::Input) => run.input.unwrap_or(""),
        (Some(Command::Run(run)), Source::Report) => run.report.unwrap_or(""),
        (Some(Command::Show { image }), Source::Image) => image,
        (Some(Command::Replay(replay)), Source::Program) => replay.program,
        (Some(Command::Replay(replay)), Source::Image) => replay.image,
        (Some(Command::Replay(replay)), Source::Events) => replay.events,
        (Some(Command::Replay(replay)), Source::Input) => replay.input.unwrap_or(""),
        (Some(Command::Profile { walk, .. }), Source::Program) => walk.program,
        (Some(Command::Profile { walk, .. }), Source::Input) => walk.input.unwrap_or(""),
        (Some(Command::Profile { walk, .. }), Source::Output) => walk.other,
        (Some(Command::Values(walk)), Source::Program) => walk.program,
        (Some(Command::Values(walk)), Source::Input) => walk.input.unwrap_or(""),
        (Some(Command::Values(walk)), Source::Output) => walk.other,
        (Some(Command::Distill(distill)), Source::Program) => distill.program,
        (Some(Command::Distill(distill)), Source::Profile) => distill.profile,
        (Some(Command::Distill(distill)), Source::Values) => distill.values.unwrap_or(""),
        (Some(Command::Distill(distill)), Source::Output) => distill.output,
        (Some(Command::Check(walk)), Source::Program) => walk.program,
        (Some(Command::Check(walk)), Source::Image) => walk.other,
        (Some(Command::Check(walk)), Source::Input) => walk.input.unwrap_or(""),
        (Some(Command::Certify { program, .. }), Source::Program) => program,
        (Some(Command::Certify { image, .. }), Source::Image) => image,
        (Some(Command::Trial(_)), Source::Program | Source::Profile) => "trial",
        _ => "",
    }
}

fn push_elf(out: &mut Vec<u8>, refusal: ElfErr) -> Result<(), AllocError>
    ensures { OnOk result (out.new.items ≡ out.old.items ++ spaced (elf_words refusal)) }
{
    match refusal {
        ElfErr::Short => push_words(out, &[Word::Text("short")]),
        ElfErr::Magic => push_words(out, &[Word::Text("magic")]),
        ElfErr::Class => push_words(out, &[Word::Text("class")]),
        ElfErr::Endian => push_words(out, &[Word::Text("endian")]),
        ElfErr::Version => push_words(out, &[Word::Text("version")]),
        ElfErr::Kind => push_words(out, &[Word::Text("kind")]),
        ElfErr::Machine => push_words(out, &[Word::Text("machine")]),
        ElfErr::Flags => push_words(out, &[Word::Text("flags")]),
        ElfErr::Entry => push_words(out, &[Word::Text("entry")]),
        ElfErr::Table => push_words(out, &[Word::Text("table")]),
        ElfErr::TooMany => push_words(out, &[Word::Text("too many")]),
        ElfErr::Interp => push_words(out, &[Word::Text("interp")]),
        ElfErr::Outside(i) => push_words(out, &[Word::Text("outside"), Word::Number(i.into())]),
        ElfErr::Larger(i) => push_words(out, &[Word::Text("larger"), Word::Number(i.into())]),
        ElfErr::Wraps(i) => push_words(out, &[Word::Text("wraps"), Word::Number(i.into())]),
        ElfErr::Memory => push_words(out, &[Word::Text("memory")]),
    }
}

fn table_word(table: Table) -> &'static str
    ensures { result.now ≡ table_word table }
{
    match table {
        Table::Slots => "slots",
        Table::Anchors => "anchors",
        Table::Notes => "notes",
        Table::Assumptions => "assumptions",
        Table::Targets => "targets",
        Table::Writes => "writes",
    }
}

// Puts what is wrong with an entry of a table.
fn push_entry(out: &mut Vec<u8>, what: &str, table: Table, i: u32) -> Result<(), AllocError>
    ensures { OnOk result (out.new.items
        ≡ out.old.items ++ spaced (what.now ∷ table_word table ∷ decimal i ∷ [])) }
{
    let table = Word::Text(table_word(table));
    push_words(out, &[Word::Text(what), table, Word::Number(u64::from(i))])
}

fn push_image(out: &mut Vec<u8>, refusal: ImageErr) -> Result<(), AllocError>
    ensures { OnOk result (out.new.items ≡ out.old.items ++ spaced (image_words refusal)) }
{
    match refusal {
        ImageErr::Short => push_words(out, &[Word::Text("short")]),
        ImageErr::Magic => push_words(out, &[Word::Text("magic")]),
        ImageErr::Version => push_words(out, &[Word::Text("version")]),
        ImageErr::Limit => push_words(out, &[Word::Text("limit")]),
        ImageErr::TooMany(table) => {
            push_words(
                out,
                &[Word::Text("too many"), Word::Text(table_word(table))],
            )
        }
        ImageErr::Kind(table, i) => push_entry(out, "kind", table, i),
        ImageErr::Range(table, i) => push_entry(out, "range", table, i),
        ImageErr::Order(table, i) => push_entry(out, "order", table, i),
        ImageErr::Long => push_words(out, &[Word::Text("long")]),
        ImageErr::Memory => push_words(out, &[Word::Text("memory")]),
    }
}

fn push_events(out: &mut Vec<u8>, refusal: EventErr) -> Result<(), AllocError>
    ensures { OnOk result (out.new.items ≡ out.old.items ++ spaced (event_words refusal)) }
{
    match refusal {
        EventErr::Line(number) => push_words(out, &[Word::Text("line"), Word::Number(number)]),
        EventErr::TooMany(number) => {
            push_words(out, &[Word::Text("too many"), Word::Number(number)])
        }
        EventErr::Memory => push_words(out, &[Word::Text("memory")]),
    }
}

// Puts what is wrong with a row.
fn push_row(out: &mut Vec<u8>, what: &str, i: u32) -> Result<(), AllocError>
    ensures { OnOk result (out.new.items ≡ out.old.items ++ spaced (what.now ∷ decimal i ∷ [])) }
{
    push_words(out, &[Word::Text(what), Word::Number(u64::from(i))])
}

fn push_profile(out: &mut Vec<u8>, refusal: ProfileErr) -> Result<(), AllocError>
    ensures { OnOk result (out.new.items ≡ out.old.items ++ spaced (profile_words refusal)) }
{
    match refusal {
        ProfileErr::Short => push_words(out, &[Word::Text("short")]),
        ProfileErr::Magic => push_words(out, &[Word::Text("magic")]),
        ProfileErr::Version => push_words(out, &[Word::Text("version")]),
        ProfileErr::Mark => push_words(out, &[Word::Text("mark")]),
        ProfileErr::TooMany => push_words(out, &[Word::Text("too many")]),
        ProfileErr::Kind(i) => push_row(out, "kind", i),
        ProfileErr::Range(i) => push_row(out, "range", i),
        ProfileErr::Twice(i) => push_row(out, "twice", i),
        ProfileErr::Order(i) => push_row(out, "order", i),
        ProfileErr::Sum => push_words(out, &[Word::Text("sum")]),
        ProfileErr::Long => push_words(out, &[Word::Text("long")]),
        ProfileErr::Memory => push_words(out, &[Word::Text("memory")]),
    }
}

fn push_values(out: &mut Vec<u8>, refusal: ValuesErr) -> Result<(), AllocError>
    ensures { OnOk result (out.new.items ≡ out.old.items ++ spaced (values_words refusal)) }
{
    match refusal {
        ValuesErr::Short => push_words(out, &[Word::Text("short")]),
        ValuesErr::Magic => push_words(out, &[Word::Text("magic")]),
        ValuesErr::Version => push_words(out, &[Word::Text("version")]),
        ValuesErr::TooMany => push_words(out, &[Word::Text("too many")]),
        ValuesErr::Range(i) => push_row(out, "range", i),
        ValuesErr::Order(i) => push_row(out, "order", i),
        ValuesErr::Long => push_words(out, &[Word::Text("long")]),
        ValuesErr::Memory => push_words(out, &[Word::Text("memory")]),
    }
}

fn push_refusal(
    out: &mut Vec<u8>,
    refusal: Refusal,
    command: Option<Command<'_>>,
) -> Result<(), AllocError>
    ensures { OnOk result (out.new.items
        ≡ out.old.items ++ spaced (refusal_words (name_of (option_map shown command.entry)) refusal)) }
{
    match refusal {
        Refusal::Program(what) => {
            let program = name(command, Source::Program);
            push_words(out, &[Word::Text("program"), Word::Label(program)])?;
            push_elf(out, what)
        }
        Refusal::Image(what) => {
            let image = name(command, Source::Image);
            push_words(out, &[Word::Text("image"), Word::Label(image)])?;
            push_image(out, what)
        }
        Refusal::Events(what) => {
            let events = name(command, Source::Events);
            push_words(out, &[Word::Text("events"), Word::Label(events)])?;
            push_events(out, what)
        }
        Refusal::Profile(what) => {
            let profile = name(command, Source::Profile);
            push_words(out, &[Word::Text("profile"), Word::Label(profile)])?;
            push_profile(out, what)
        }
        Refusal::Wide => {
            let program = name(command, Source::Program);
            let what = Word::Text("wide");
            push_words(out, &[Word::Text("profile"), Word::Label(program), what])
        }
        Refusal::Empty => {
            let profile = name(command, Source::Profile);
            let what = Word::Text("empty");
            push_words(out, &[Word::Text("profile"), Word::Label(profile), what])
        }
        Refusal::Values(what) => {
            let values = name(command, Source::Values);
            push_words(out, &[Word::Text("values"), Word::Label(values)])?;
            push_values(out, what)
        }
        Refusal::WideLoads => {
            let program = name(command, Source::Program);
            let what = Word::Text("wide");
            push_words(out, &[Word::Text("values"), Word::Label(program), what])
        }
    }
}

fn push_trap(out: &mut Vec<u8>, pc: u32, end: End) -> Result<(), AllocError>
    ensures { OnOk result (out.new.items ≡ out.old.items ++ trap_line pc end) }
{
    out.extend_from_slice(b"mssp:")?;
    push_words(out, &[Word::Text("trap"), Word::Hex(pc)])?;
    push_end(out, end)?;
    out.extend_from_slice(b"\n")
}

fn push_refused(
    out: &mut Vec<u8>,
    refusal: Refusal,
    command: Option<Command<'_>>,
) -> Result<(), AllocError>
    ensures { OnOk result (out.new.items
        ≡ out.old.items ++ fault_line (refusal_words (name_of (option_map shown command.entry)) refusal)) }
{
    out.extend_from_slice(b"mssp:")?;
    push_refusal(out, refusal, command)?;
    out.extend_from_slice(b"\n")
}

// Puts a line that says what happened to a file.
fn push_fault(out: &mut Vec<u8>, fault: &str, name: &str) -> Result<(), AllocError>
    ensures { OnOk result (out.new.items ≡ out.old.items ++ fault_line (fault.now ∷ name.now ∷ [])) }
{
    push_line(out, "mssp:", &[Word::Text(fault), Word::Text(name)])
}

fn push_answer(
    out: &mut Vec<u8>,
    answer: Answer,
    command: Option<Command<'_>>,
) -> Result<(), AllocError>
    ensures { OnOk result (out.new.items
        ≡ out.old.items ++ line_of (name_of (option_map shown command.entry)) answer) }
{
    match answer {
        Answer::Usage => push_line(out, "mssp:", &[Word::Text("usage")]),
        Answer::Absent(source) => push_fault(out, "absent", name(command, source)),
        Answer::StoreFault(source) => push_fault(out, "store fault", name(command, source)),
        Answer::SinkFault => push_line(out, "mssp:", &[Word::Text("sink fault")]),
        Answer::Memory => push_line(out, "mssp:", &[Word::Text("memory")]),
        Answer::TooLong(source) => push_fault(out, "too long", name(command, source)),
        Answer::Refused(refusal) => push_refused(out, refusal, command),
        Answer::Done | Answer::Broken => Ok(()),
        Answer::Ran {
            end: End::Exit(_),
            ..
        } => Ok(()),
        Answer::Ran { pc, end } => push_trap(out, pc, end),
        Answer::Budget => push_line(out, "mssp:", &[Word::Text("budget")]),
    }
}

/// The line that tells a command's answer, or nothing where the status alone does.
pub fn line(
    alloc: Global,
    answer: Answer,
    command: Option<Command<'_>>,
) -> Result<Vec<u8>, AllocError>
    ensures { IfOk result (λ line. line.items ≡ line_of (name_of (option_map shown command.entry)) answer) }
{
    let mut out = Vec::new(alloc);
    push_answer(&mut out, answer, command)?;
    Ok(out)
}
