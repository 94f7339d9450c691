//! Printing a program as its file.
ghost use Rattle.std.specs.Prelude.{◌≡◌, ◌∷◌, ◌++◌, [], Ok, true, map, codes, IfOk, OnOk, if◌then◌else◌};
ghost use Rattle.value_core.specs.declared.token.Token.TheVariants.{Name, Number, Words, Mark};
ghost use Rattle.pipe_text.specs.inside.FileReading.{pipeline_of};
ghost use Rattle.op_keys.specs.declared.declarations.Expiry.TheVariants.{Daily, Monthly};
ghost use Rattle.pipe_text.specs.Files.{HasSpelling, IsFileOf, IsSpelled};
ghost use Rattle.pipe_text.specs.PrintedFiles.{FitsFile};
ghost use Rattle.pipe_text.specs.Words.{fun_letters, kind_letters, level_letters};
ghost use Rattle.pipe_text.specs.Printing.{item_tokens, items_tokens, literal_tokens, term_tokens, text_tokens, flag_tokens, level_tokens, offset_tokens, expiry_tokens, input_tokens, pool_tokens, client_tokens, worker_tokens, kind_tokens, placement_tokens, settings_tokens, retention_tokens, run_tokens, op_tokens, node_tokens, lines_of, pipeline_text, with_token, with_end, after_lines};
ghost use Rattle.pipe_text.specs.inside.Printers.{Prints, return_tokens, fail_tokens, named_tokens, map_tokens, one_tokens, two_tokens, keyed_tokens, under_tokens, terms_tokens, all_tokens, value_tokens};

use op_keys::{ClientDecl, Expiry, Level, OpDecl, PoolDecl, WorkerDecl};
use std::alloc::Global;
use std::marker::Model;
use term_core::{FailKind, InputDecl, NodeDecl, Program, Term};
use value_core::{Fun, ListOf, NoMemory, Text, Value, write_text};

/// What is printed so far. Contracts see its bytes, and whether the next token wants no space
/// before it.
#[derive(Drop)]
struct Printer {
    out: String,
    tight: bool,
}

impl Model for Printer {
    ghost use Rattle.std.specs.Prelude.{List, ℕ, Bool};
    ghost use Rattle.std.specs.String.{string_bytes};

    ghost Value = { List ℕ × Bool };

    ghost view = { λ p. (string_bytes p.out, p.tight) };
}

impl Printer {
    fn new(alloc: Global) -> Printer
        ensures { result ≡ ([], true) }
    {
        Printer {
            out: String::new(alloc),
            tight: true,
        }
    }

    /// The space before a token that may have one.
    fn space(&mut self) -> Result<(), NoMemory>
        ensures { OnOk result (self.new.0 ≡ self.old.0 ++ (if self.old.1 then [] else codes " ")) }
    {
        if self.tight {
            return Ok(());
        }
        self.out.push_str(" ")
    }

    #[tactic(auto, unfolding(crate::specs::Printing::with_token))]
    fn word(&mut self, word: &str) -> Result<(), NoMemory>
        ensures { OnOk result (self.new ≡ with_token (Name word.now) self.old) }
    {
        self.space()?;
        self.tight = false;
        self.out.push_str(word)
    }

    #[tactic(auto, unfolding(crate::specs::Printing::with_token))]
    fn number(&mut self, n: u64) -> Result<(), NoMemory>
        ensures { OnOk result (self.new ≡ with_token (Number n) self.old) }
    {
        self.space()?;
        self.tight = false;
        write!(self.out, "{n}")
    }

    #[tactic(auto, unfolding(crate::specs::Printing::with_token))]
    fn string(&mut self, text: &Text) -> Result<(), NoMemory>
        ensures { OnOk result (self.new ≡ with_token (Words text.now) self.old) }
    {
        self.space()?;
        self.tight = false;
        write_text(&mut self.out, text)
    }

    #[tactic(auto, unfolding(crate::specs::Printing::with_token))]
    fn open_term(&mut self) -> Result<(), NoMemory>
        ensures { OnOk result (self.new ≡ with_token (Mark 40) self.old) }
    {
        self.space()?;
        self.tight = true;
        self.out.push_str("(")
    }

    #[tactic(auto, unfolding(crate::specs::Printing::with_token))]
    fn close_term(&mut self) -> Result<(), NoMemory>
        ensures { OnOk result (self.new ≡ with_token (Mark 41) self.old) }
    {
        self.tight = false;
        self.out.push_str(")")
    }

    #[tactic(auto, unfolding(crate::specs::Printing::with_token))]
    fn open_list(&mut self) -> Result<(), NoMemory>
        ensures { OnOk result (self.new ≡ with_token (Mark 91) self.old) }
    {
        self.space()?;
        self.tight = true;
        self.out.push_str("[")
    }

    #[tactic(auto, unfolding(crate::specs::Printing::with_token))]
    fn close_list(&mut self) -> Result<(), NoMemory>
        ensures { OnOk result (self.new ≡ with_token (Mark 93) self.old) }
    {
        self.tight = false;
        self.out.push_str("]")
    }

    #[tactic(auto, unfolding(crate::specs::Printing::with_token))]
    fn comma(&mut self) -> Result<(), NoMemory>
        ensures { OnOk result (self.new ≡ with_token (Mark 44) self.old) }
    {
        self.tight = false;
        self.out.push_str(",")
    }

    #[tactic(auto, unfolding(crate::specs::Printing::with_end))]
    fn end_line(&mut self) -> Result<(), NoMemory>
        ensures { OnOk result (self.new ≡ with_end self.old) }
    {
        self.tight = true;
        self.out.push_str("\n")
    }

    fn name(&mut self, name: &Text) -> Result<(), NoMemory>
        ensures { OnOk result (self.new ≡ with_token (Name name.now) self.old) }
    {
        self.word(name.as_str())
    }

    /// The bracket and the word that a term begins with.
    fn begin(&mut self, word: &str) -> Result<(), NoMemory>
        ensures { Prints result self.old self.new (Mark 40 ∷ Name word.now ∷ []) }
    {
        self.open_term()?;
        self.word(word)
    }

    fn into_bytes(self) -> ListOf<u8>
        ensures { result ≡ self.0 }
    {
        let Printer { out, .. } = self;
        ListOf::from_vec(out.into_bytes())
    }
}

fn word_of_fun(fun: Fun) -> &'static str
    ensures { result.now ≡ fun_letters fun }
{
    match fun {
        Fun::Trim => "trim",
        Fun::Lines => "lines",
        Fun::Words => "words",
        Fun::Join => "join",
        Fun::Concat => "concat",
        Fun::Length => "length",
        Fun::Count => "count",
        Fun::Number => "number",
        Fun::Show => "show",
        Fun::Add => "add",
        Fun::Equal => "equal",
        Fun::AtMost => "at_most",
        Fun::First => "first",
        Fun::Second => "second",
        Fun::Describe => "describe",
        Fun::Must => "must",
    }
}

fn word_of_kind(kind: FailKind) -> &'static str
    ensures { result.now ≡ kind_letters kind }
{
    match kind {
        FailKind::Text => "text",
        FailKind::Num => "num",
        FailKind::Unit => "unit",
        FailKind::List => "list",
    }
}

/// The word of a level in a pipeline file.
pub fn word_of_level(level: Level) -> &'static str
    ensures { result.now ≡ level_letters level }
{
    match level {
        Level::Harmless => "harmless",
        Level::MostlyHarmless => "mostly_harmless",
        Level::Average => "average",
        Level::AboveAverage => "above_average",
        Level::Dangerous => "dangerous",
    }
}

fn put_item(printer: &mut Printer, item: &Value) -> Result<(), NoMemory>
    ensures { Prints result printer.old printer.new (item_tokens item.now) }
{
    match item {
        Value::Words(text) => printer.string(text),
        _ => Ok(()),
    }
}

#[tactic(auto, using(crate::proofs::Printings::after_both))]
fn put_items(printer: &mut Printer, items: &[Value]) -> Result<(), NoMemory>
    ensures { Prints result printer.old printer.new (items_tokens items.now) }
{
    let mut is_first = true;
    for item in items {
        if is_first {
            is_first = false;
        } else {
            printer.comma()?;
        }
        put_item(printer, item)?;
    }
    printer.close_list()
}

fn put_list(printer: &mut Printer, items: &[Value]) -> Result<(), NoMemory>
    ensures { Prints result printer.old printer.new (Mark 91 ∷ items_tokens items.now) }
{
    printer.open_list()?;
    put_items(printer, items)
}

fn put_literal(printer: &mut Printer, value: &Value) -> Result<(), NoMemory>
    ensures { Prints result printer.old printer.new (literal_tokens value.now) }
{
    match value {
        Value::Words(text) => printer.string(text),
        Value::Num(n) => printer.number(*n),
        Value::Unit => printer.word("unit"),
        Value::List(items) => put_list(printer, items.as_slice()),
        // No file has such a literal.
        Value::Pair(..) | Value::Out(_) => Ok(()),
    }
}

#[tactic(auto, using(crate::proofs::Printings::after_both))]
fn put_return(printer: &mut Printer, value: &Value) -> Result<(), NoMemory>
    ensures { Prints result printer.old printer.new (return_tokens value.now) }
{
    printer.begin("return")?;
    put_literal(printer, value)?;
    printer.close_term()
}

fn put_fail(printer: &mut Printer, kind: FailKind, message: &Text) -> Result<(), NoMemory>
    ensures { Prints result printer.old printer.new (fail_tokens kind message.now) }
{
    printer.begin("fail")?;
    printer.word(word_of_kind(kind))?;
    printer.string(message)?;
    printer.close_term()
}

fn put_named(printer: &mut Printer, word: &str, name: &Text) -> Result<(), NoMemory>
    ensures { Prints result printer.old printer.new (named_tokens word.now name.now) }
{
    printer.begin(word)?;
    printer.name(name)?;
    printer.close_term()
}

#[cycle(printing)]
#[tactic(auto, using(crate::proofs::Printings::after_both))]
fn put_map(printer: &mut Printer, fun: Fun, term: &Term) -> Result<(), NoMemory>
    ensures { Prints result printer.old printer.new (map_tokens fun term.now) }
{
    printer.begin("map")?;
    printer.word(word_of_fun(fun))?;
    put_term(printer, term)?;
    printer.close_term()
}

#[cycle(printing)]
#[tactic(auto, using(crate::proofs::Printings::after_both))]
fn put_one(printer: &mut Printer, word: &str, term: &Term) -> Result<(), NoMemory>
    ensures { Prints result printer.old printer.new (one_tokens word.now term.now) }
{
    printer.begin(word)?;
    put_term(printer, term)?;
    printer.close_term()
}

#[cycle(printing)]
#[tactic(auto, using(crate::proofs::Printings::after_both))]
fn put_two(printer: &mut Printer, word: &str, a: &Term, b: &Term) -> Result<(), NoMemory>
    ensures { Prints result printer.old printer.new (two_tokens word.now a.now b.now) }
{
    printer.begin(word)?;
    put_term(printer, a)?;
    put_term(printer, b)?;
    printer.close_term()
}

#[cycle(printing)]
#[tactic(auto, using(crate::proofs::Printings::after_both))]
fn put_keyed(printer: &mut Printer, word: &str, name: &Text, key: &Term) -> Result<(), NoMemory>
    ensures { Prints result printer.old printer.new (keyed_tokens word.now name.now key.now) }
{
    printer.begin(word)?;
    printer.name(name)?;
    put_term(printer, key)?;
    printer.close_term()
}

#[cycle(printing)]
#[tactic(auto, using(crate::proofs::Printings::after_both))]
fn put_under(
    printer: &mut Printer,
    word: &str,
    name: &Text,
    a: &Term,
    b: &Term,
) -> Result<(), NoMemory>
    ensures { Prints result printer.old printer.new (under_tokens word.now name.now a.now b.now) }
{
    printer.begin(word)?;
    printer.name(name)?;
    put_term(printer, a)?;
    put_term(printer, b)?;
    printer.close_term()
}

#[cycle(printing)]
#[tactic(auto, using(crate::proofs::Printings::after_both))]
fn put_terms(printer: &mut Printer, terms: &[Term]) -> Result<(), NoMemory>
    ensures { Prints result printer.old printer.new (terms_tokens terms.now) }
{
    for term in terms {
        put_term(printer, term)?;
    }
    Ok(())
}

#[cycle(printing)]
#[tactic(auto, using(crate::proofs::Printings::after_both))]
fn put_all(printer: &mut Printer, terms: &[Term]) -> Result<(), NoMemory>
    ensures { Prints result printer.old printer.new (all_tokens terms.now) }
{
    printer.begin("all")?;
    put_terms(printer, terms)?;
    printer.close_term()
}

#[cycle(printing)]
fn put_term(printer: &mut Printer, term: &Term) -> Result<(), NoMemory>
    ensures { Prints result printer.old printer.new (term_tokens term.now) }
{
    match term {
        Term::Return(value) => put_return(printer, value),
        Term::Fail { kind, message } => put_fail(printer, *kind, message),
        Term::Input(name) => put_named(printer, "input", name),
        Term::Node(name) => put_named(printer, "node", name),
        Term::Var(name) => put_named(printer, "var", name),
        Term::Map { fun, term } => put_map(printer, *fun, term.get()),
        Term::Pair(a, b) => put_two(printer, "pair", a.get(), b.get()),
        Term::Bind { name, left, body } => put_under(printer, "bind", name, left.get(), body.get()),
        Term::ListMap { name, list, body } => put_under(
            printer,
            "list_map",
            name,
            list.get(),
            body.get(),
        ),
        Term::ListIter { name, list, body } => put_under(
            printer,
            "list_iter",
            name,
            list.get(),
            body.get(),
        ),
        Term::Catch(term) => put_one(printer, "catch", term.get()),
        Term::State(term) => put_one(printer, "state", term.get()),
        Term::Gate(on, term) => put_two(printer, "gate", on.get(), term.get()),
        Term::All(terms) => put_all(printer, terms.as_slice()),
        Term::Build { op, key } => put_keyed(printer, "build", op, key.get()),
        Term::Output { op, key, value } => put_under(printer, "output", op, key.get(), value.get()),
    }
}

fn put_optional(printer: &mut Printer, word: &str, text: &Option<Text>) -> Result<(), NoMemory>
    ensures { Prints result printer.old printer.new (text_tokens word.now text.now) }
{
    match text {
        Some(text) => {
            printer.word(word)?;
            printer.string(text)
        }
        None => Ok(()),
    }
}

fn put_flag(printer: &mut Printer, word: &str, is_on: bool) -> Result<(), NoMemory>
    ensures { Prints result printer.old printer.new (flag_tokens word.now is_on) }
{
    if is_on { printer.word(word) } else { Ok(()) }
}

fn put_level(printer: &mut Printer, level: Level) -> Result<(), NoMemory>
    ensures { Prints result printer.old printer.new (level_tokens level) }
{
    match level {
        Level::Average => Ok(()),
        _ => {
            printer.word("level")?;
            printer.word(word_of_level(level))
        }
    }
}

fn put_offset(printer: &mut Printer, offset: i32) -> Result<(), NoMemory>
    ensures { Prints result printer.old printer.new (offset_tokens offset) }
{
    if offset < 0 {
        printer.word("west")?;
    } else {
        printer.word("east")?;
    }
    printer.number(offset.unsigned_abs() as u64)
}

#[tactic(auto, using(crate::proofs::Printings::after_both))]
fn put_daily(printer: &mut Printer, minute: u32, offset: i32) -> Result<(), NoMemory>
    ensures { Prints result printer.old printer.new (expiry_tokens (Daily minute offset)) }
{
    printer.word("schedule")?;
    printer.word("daily")?;
    printer.number(minute as u64)?;
    put_offset(printer, offset)
}

#[tactic(auto, using(crate::proofs::Printings::after_both))]
fn put_monthly(printer: &mut Printer, day: u32, minute: u32, offset: i32) -> Result<(), NoMemory>
    ensures { Prints result printer.old printer.new (expiry_tokens (Monthly day minute offset)) }
{
    printer.word("schedule")?;
    printer.word("monthly")?;
    printer.number(day as u64)?;
    printer.number(minute as u64)?;
    put_offset(printer, offset)
}

fn put_expiry(printer: &mut Printer, expiry: Expiry) -> Result<(), NoMemory>
    ensures { Prints result printer.old printer.new (expiry_tokens expiry) }
{
    match expiry {
        Expiry::Never => Ok(()),
        Expiry::After(n) => {
            printer.word("valid_for")?;
            printer.number(n)
        }
        Expiry::Daily { minute, offset } => put_daily(printer, minute, offset),
        Expiry::Monthly {
            day,
            minute,
            offset,
        } => put_monthly(printer, day, minute, offset),
    }
}

fn put_kind(printer: &mut Printer, op: &OpDecl) -> Result<(), NoMemory>
    ensures { Prints result printer.old printer.new (kind_tokens op.now) }
{
    printer.word("op")?;
    printer.name(&op.name)?;
    if op.output {
        printer.word("output")
    } else {
        printer.word("build")
    }
}

fn put_placement(printer: &mut Printer, op: &OpDecl) -> Result<(), NoMemory>
    ensures { Prints result printer.old printer.new (placement_tokens op.now) }
{
    printer.word("pool")?;
    printer.name(&op.pool)?;
    printer.word("client")?;
    printer.name(&op.client)?;
    printer.word("cost")?;
    printer.number(op.full)?;
    printer.number(op.cached)
}

#[tactic(auto, using(crate::proofs::Printings::after_both))]
fn put_settings(printer: &mut Printer, op: &OpDecl) -> Result<(), NoMemory>
    ensures { Prints result printer.old printer.new (settings_tokens op.now) }
{
    put_optional(printer, "hint", &op.hint)?;
    put_flag(printer, "urgent", op.urgent)?;
    put_level(printer, op.level)
}

#[tactic(auto, using(crate::proofs::Printings::after_both))]
fn put_retention(printer: &mut Printer, op: &OpDecl) -> Result<(), NoMemory>
    ensures { Prints result printer.old printer.new (retention_tokens op.now) }
{
    put_expiry(printer, op.expiry)?;
    put_flag(printer, "latched", op.latched)?;
    put_flag(printer, "no_cancel", op.no_cancel)
}

fn put_run(printer: &mut Printer, words: &[Text]) -> Result<(), NoMemory>
    ensures { Prints result printer.old printer.new (run_tokens words.now) }
{
    printer.word("run")?;
    for word in words {
        printer.string(word)?;
    }
    Ok(())
}

fn put_value_word(printer: &mut Printer, value: &Value) -> Result<(), NoMemory>
    ensures { Prints result printer.old printer.new (value_tokens value.now) }
{
    match value {
        Value::Words(_) => printer.word("text"),
        Value::Num(_) => printer.word("num"),
        Value::List(_) => printer.word("list"),
        // No input has such a value.
        Value::Unit | Value::Pair(..) | Value::Out(_) => Ok(()),
    }
}

/// What a line of a file declares.
trait Declared {
    ghost use Rattle.std.specs.Prelude.{List};
    ghost use Rattle.value_core.specs.declared.token.Token.{Token};
    ghost use Rattle.pipe_text.specs.inside.Printers.{Prints};

    /// The tokens of the line.
    ghost tokens: { Self → List Token };

    fn put(&self, printer: &mut Printer) -> Result<(), NoMemory>
        ensures { Prints result printer.old printer.new (tokens self.now) };
}

impl Declared for InputDecl {
    ghost tokens = { input_tokens };

    #[tactic(auto, using(crate::proofs::Printings::after_both))]
    fn put(&self, printer: &mut Printer) -> Result<(), NoMemory> {
        printer.word("input")?;
        printer.name(&self.name)?;
        put_value_word(printer, &self.value)?;
        put_literal(printer, &self.value)?;
        put_optional(printer, "watch", &self.watch)
    }
}

impl Declared for PoolDecl {
    ghost tokens = { pool_tokens };

    fn put(&self, printer: &mut Printer) -> Result<(), NoMemory> {
        printer.word("pool")?;
        printer.name(&self.name)?;
        printer.word("hold")?;
        printer.number(self.hold)
    }
}

impl Declared for ClientDecl {
    ghost tokens = { client_tokens };

    fn put(&self, printer: &mut Printer) -> Result<(), NoMemory> {
        printer.word("client")?;
        printer.name(&self.name)?;
        printer.name(&self.pool)?;
        printer.number(self.rate)
    }
}

impl Declared for WorkerDecl {
    ghost tokens = { worker_tokens };

    fn put(&self, printer: &mut Printer) -> Result<(), NoMemory> {
        printer.word("worker")?;
        printer.name(&self.name)?;
        printer.name(&self.pool)?;
        printer.number(self.capacity)
    }
}

impl Declared for OpDecl {
    ghost tokens = { op_tokens };

    #[tactic(auto, using(crate::proofs::Printings::after_both))]
    fn put(&self, printer: &mut Printer) -> Result<(), NoMemory> {
        put_kind(printer, self)?;
        put_placement(printer, self)?;
        put_settings(printer, self)?;
        put_retention(printer, self)?;
        put_run(printer, self.words.as_slice())
    }
}

impl Declared for NodeDecl {
    ghost tokens = { node_tokens };

    fn put(&self, printer: &mut Printer) -> Result<(), NoMemory> {
        printer.word("node")?;
        printer.name(&self.name)?;
        put_term(printer, &self.term)
    }
}

fn put_lines<D: Declared>(printer: &mut Printer, decls: &ListOf<D>) -> Result<(), NoMemory>
    ensures { OnOk result (printer.new ≡ after_lines printer.old (map D.tokens decls.now)) }
{
    for decl in decls.as_slice() {
        decl.put(printer)?;
        printer.end_line()?;
    }
    Ok(())
}

#[tactic(auto, using(crate::proofs::Printings::lines_both))]
fn put_program(printer: &mut Printer, program: &Program) -> Result<(), NoMemory>
    ensures { OnOk result (printer.new ≡ after_lines printer.old (lines_of program.now)) }
{
    printer.word("pipeline")?;
    printer.number(program.version as u64)?;
    printer.end_line()?;
    put_lines(printer, &program.inputs)?;
    put_lines(printer, &program.pools)?;
    put_lines(printer, &program.clients)?;
    put_lines(printer, &program.workers)?;
    put_lines(printer, &program.ops)?;
    put_lines(printer, &program.nodes)
}

/// The bytes of a file of this program: its version and each declaration on a line of its own.
/// They have no bound of length.
pub fn print_pipeline(alloc: Global, program: &Program) -> Result<ListOf<u8>, NoMemory>
    ensures bytes { IfOk result (λ b. b ≡ pipeline_text program.now) }
    // What is printed spells a program that some bytes spell.
    ensures spelled { IfOk result (λ b. HasSpelling program.now → IsSpelled b program.now) }
    // It is a file of that program, if the bytes are not too many.
    ensures file { IfOk result (λ b. FitsFile program.now b → IsFileOf b program.now) }
    // Reading then returns the program.
    ensures read_back { IfOk result (λ b. FitsFile program.now b → pipeline_of b ≡ Ok program.now) }
{
    let mut printer = Printer::new(alloc);
    put_program(&mut printer, program)?;
    Ok(printer.into_bytes())
}
