//! Values from outside: objects of two segments, text from 0x100 to 0x500 and data from 0x10000 to 0x10100.

ghost use Rattle.std.specs.Prelude.{◌≡◌, ◌≤◌, ◌<◌, ◌^◌, ℕ, [], length, All, IfOk, OnOk, option_map};
ghost use Rattle.elf_model.specs.Sound.{IsSound};
ghost use Rattle.symbol_scope.specs.Exports.{exports_of};
ghost use Rattle.symbol_scope.specs.parts.Needs.{table_at};
ghost use Rattle.load_model.specs.Linkage.{joining_at};
ghost use Rattle.load_sites.specs.parts.Linker.{IsReady};

use crate::checks::{holds, holds_at, same};
use elf_model::constants::{
    R_ARM_ABS32, R_ARM_FUNCDESC, R_ARM_FUNCDESC_VALUE, R_ARM_RELATIVE, STT_FUNC, STT_SECTION,
    STV_DEFAULT, STV_HIDDEN,
};
use elf_model::{Func, Inits, Kind, Object, Place, Rel, Segment, Symbol};
use fd_base::{Bytes, Memory, Name, Numbers, Seq};
use func_desc::DescPool;
use load_model::{Definition, Joining, LoadErr, LoadRefusal, SiteValue, SymbolicProcess, Value};
use load_sites::Linker;
use std::alloc::Global;
use std::process::Abort;
use std::test::Fail;
use symbol_scope::{Found, MAX_MODULES, Tables};

// ---- objects

const LOCAL: u8 = 0;

const GLOBAL: u8 = 1;

const WEAK: u8 = 2;

const HERE: Place = Place::Here;

fn symbol(
    alloc: Global,
    name: &[u8],
    (binding, kind, visibility): (u8, u8, u8),
    place: Place,
    value: u32,
) -> Result<Symbol, Fail> {
    Ok(Symbol {
        name: Name::new(alloc, name).ok(),
        value,
        size: 0,
        binding,
        kind,
        visibility,
        place,
    })
}

/// A symbol by name, kind, place and value.
type Entry<'a> = (&'a [u8], (u8, u8, u8), Place, u32);

/// These symbols behind the null symbol.
fn symbols(alloc: Global, entries: &[Entry]) -> Result<Vec<Symbol>, Fail> {
    let mut symbols = Vec::new(alloc);
    let null = (LOCAL, 0, STV_DEFAULT);
    symbols.push(symbol(alloc, b"", null, Place::Undefined, 0)?)?;
    for (name, kind, place, value) in entries {
        symbols.push(symbol(alloc, name, *kind, *place, *value)?)?;
    }
    Ok(symbols)
}

fn shortened(bytes: Bytes, len: usize) -> Bytes
    ensures { length result ≤ len }
{
    let mut bytes = bytes;
    bytes.truncate(len);
    bytes
}

fn filled(alloc: Global, words: [u32; 4]) -> Result<Bytes, Memory>
    ensures { IfOk result (λ bytes. length bytes ≤ 256) }
{
    let mut bytes = Seq::new(alloc);
    bytes.extend_from_slice(&[0u8; 16])?;
    for word in words {
        bytes.extend_from_slice(&word.to_le_bytes())?;
        bytes.extend_from_slice(&[0u8; 4])?;
    }
    Ok(shortened(bytes, 256))
}

/// The kind of a relocation, its symbol, and the word at its site.
type Site = (u8, u32, u32);

/// A word that is relocated by its own value.
const FILLER: Site = (R_ARM_RELATIVE, 0, 0x100);

fn rel_at(site: u32, means: Site) -> Rel
    ensures { result.site ≡ site }
{
    let (kind, symbol, _) = means;
    Rel { site, kind, symbol }
}

/// An object with sites at 0x10010, 0x10018, 0x10020 and 0x10028.
fn object(
    alloc: Global,
    symbolic: bool,
    symbols: Vec<Symbol>,
    sites: [Site; 4],
) -> Result<Object, Memory>
    ensures { IfOk result IsSound }
{
    let data = filled(alloc, [sites[0].2, sites[1].2, sites[2].2, sites[3].2])?;
    let mut segments = Seq::new(alloc);
    segments.push(Segment {
        vaddr: 0x100,
        memsz: 0x400,
        flags: 5,
        align: 4,
        filled: Seq::new(alloc),
    })?;
    segments.push(Segment {
        vaddr: 0x10000,
        memsz: 0x100,
        flags: 6,
        align: 4,
        filled: data,
    })?;
    let rels = [
        rel_at(0x10010, sites[0]),
        rel_at(0x10018, sites[1]),
        rel_at(0x10020, sites[2]),
        rel_at(0x10028, sites[3]),
    ];
    Ok(Object {
        kind: Kind::Dyn,
        entry: 0,
        segments,
        got: 0x10000,
        needed: Seq::new(alloc),
        soname: None,
        symbols: Seq::from_vec(symbols),
        rels: Seq::from_slice(alloc, &rels)?,
        jmprels: Seq::new(alloc),
        fixups: None,
        symbolic,
        now: false,
        inits: Inits {
            init: None,
            fini: None,
            init_array: None,
            fini_array: None,
        },
    })
}

// ---- new modules of a process without live ones

fn add(alloc: Global, joining: &mut Seq<Joining>, number: u32, object: Object) -> Result<(), Fail>
    requires sound { IsSound object }
    requires all { All (λ j. IsSound j.object) joining.old }
    ensures { OnOk result (All (λ j. IsSound j.object) joining.new) }
{
    joining.push(Joining {
        number,
        name: Name::new(alloc, &[b'a' + (number % 8) as u8])?,
        object,
    })?;
    Ok(())
}

fn tables_of(rt: &impl Abort, alloc: Global, joining: &[Joining]) -> Result<Tables, Fail>
    ensures tables { IfOk result (λ t. (m : ℕ)
        → option_map (λ x. x.exports) (table_at t.slots m) ≡ option_map (λ j. exports_of j.object.symbols) (joining_at joining.now m)) }
    ensures size { IfOk result (λ t. length t.slots ≡ 64) }
    ensures few { OnOk result (All (λ j. length j.object.symbols ≤ 2 ^ 32) joining.now) }
{
    let [new, rest @ ..] = joining else {
        return Ok(Tables::new(alloc));
    };
    let mut tables = tables_of(rt, alloc, rest)?;
    assert!(rt; new.number < MAX_MODULES);
    assert!(rt; new.object.symbols.len() < 100);
    tables.add(new.number, &new.name, &new.object)?;
    Ok(tables)
}

fn linker_of<'a>(
    process: &'a SymbolicProcess,
    joining: &'a [Joining],
    scope: &'a Numbers,
    tables: &'a Tables,
) -> Linker<'a>
    requires empty { process.now.modules ≡ [] }
    requires tables { (m : ℕ)
        → option_map (λ x. x.exports) (table_at tables.now.slots m) ≡ option_map (λ j. exports_of j.object.symbols) (joining_at joining.now m) }
    requires few { All (λ j. length j.object.symbols ≤ 2 ^ 32) joining.now }
    ensures ready { IsReady result }
    ensures joining { result.joining.now ≡ joining.now }
{
    Linker {
        process,
        joining,
        scope,
        tables,
    }
}

fn no_process(alloc: Global) -> SymbolicProcess
    ensures { result.modules ≡ [] }
{
    SymbolicProcess {
        modules: Seq::new(alloc),
        groups: Seq::new(alloc),
        global: Seq::new(alloc),
    }
}

/// A module: whether it is symbolic, its symbols, and its sites.
type Row<'a> = (bool, &'a [Entry<'a>], [Site; 4]);

/// The modules of these rows, numbered from 0 on.
fn modules(alloc: Global, rows: &[Row]) -> Result<Seq<Joining>, Fail>
    ensures { IfOk result (All (λ j. IsSound j.object)) }
{
    let mut joining = Seq::new(alloc);
    let mut number = 0u32;
    for (symbolic, entries, sites) in rows {
        let object = object(alloc, *symbolic, symbols(alloc, entries)?, *sites)?;
        add(alloc, &mut joining, number, object)?;
        number = number.wrapping_add(1);
    }
    Ok(joining)
}

fn object_of(joining: &Seq<Joining>, number: u32) -> Result<&Object, Fail> {
    let new = joining.as_slice().get(number as usize).ok_or("no module")?;
    Ok(&new.object)
}

// ---- answers

/// What is answered of a site. The name of a refusal is told apart.
#[derive(Clone, Copy, PartialEq, Eq)]
enum Answer {
    Value(SiteValue),
    Unresolved(u32),
    NotCode(u32),
    BadAddress(u32, u32),
    Other,
}

fn is_named(name: &Option<Name>, want: &[u8]) -> bool {
    match name {
        Some(name) => name.as_slice() == want,
        None => false,
    }
}

fn refused(refusal: &LoadRefusal, name: &[u8]) -> Answer {
    match refusal {
        LoadRefusal::Unresolved(m, own) if is_named(own, name) => Answer::Unresolved(*m),
        LoadRefusal::NotCode(m, own) if is_named(own, name) => Answer::NotCode(*m),
        LoadRefusal::BadAddress(m, site) => Answer::BadAddress(*m, *site),
        _ => Answer::Other,
    }
}

fn failed(error: &LoadErr, name: &[u8]) -> Answer {
    match error {
        LoadErr::Refused(refusal) => refused(refusal, name),
        _ => Answer::Other,
    }
}

fn answer_of(told: Result<SiteValue, LoadErr>, name: &[u8]) -> Answer {
    match told {
        Ok(value) => Answer::Value(value),
        Err(error) => failed(&error, name),
    }
}

const fn func(module: u32, value: u32) -> Func {
    Func { module, value }
}

fn pair(module: u32, value: u32) -> Answer {
    Answer::Value(SiteValue::Pair(Some(func(module, value))))
}

fn descriptor(module: u32, value: u32) -> Answer {
    Answer::Value(SiteValue::Descriptor(Some(func(module, value))))
}

fn place(module: u32, value: u32) -> Answer {
    Answer::Value(SiteValue::Place(func(module, value)))
}

fn formula(value: Value) -> Answer {
    Answer::Value(SiteValue::Formula(value))
}

/// What a relocation of this kind, on this symbol whose name is told, means in module 0.
fn answer_at(linker: &Linker, alloc: Global, o: &Object, rel: (u32, u8, u32), name: &[u8]) -> Answer
    requires { IsReady linker.now }
{
    let (site, kind, symbol) = rel;
    if site >= 0x20000 {
        return Answer::Other;
    }
    let r = Rel { site, kind, symbol };
    answer_of(linker.site_value(alloc, 0, o, &r), name)
}

const FUNC: (u8, u8, u8) = (GLOBAL, STT_FUNC, STV_DEFAULT);

const WEAK_FUNC: (u8, u8, u8) = (WEAK, STT_FUNC, STV_DEFAULT);

const HIDDEN_FUNC: (u8, u8, u8) = (GLOBAL, STT_FUNC, STV_HIDDEN);

const SECTION: (u8, u8, u8) = (LOCAL, STT_SECTION, STV_DEFAULT);

fn first_definition_wins(rt: &impl Abort, alloc: Global) -> Result<(), Fail> {
    let rows: [Row; 4] = [
        (false, &[(b"foo", FUNC, Place::Undefined, 0)], [FILLER; 4]),
        (false, &[(b"foo", WEAK_FUNC, HERE, 0x300)], [FILLER; 4]),
        (true, &[(b"foo", FUNC, HERE, 0x340)], [FILLER; 4]),
        (false, &[(b"foo", FUNC, HERE, 0x380)], [FILLER; 4]),
    ];
    let joining = modules(alloc, &rows)?;
    let tables = tables_of(rt, alloc, joining.as_slice())?;
    let process = no_process(alloc);
    let scope = Numbers::from_slice(alloc, &[0, 1, 2, 3])?;
    let linker = linker_of(&process, joining.as_slice(), &scope, &tables);
    for (m, module) in [(0, 1), (1, 1), (2, 2), (3, 1)] {
        let found = linker.definition(m, object_of(&joining, m)?, 1);
        let want = Definition::Symbol(Found { module, symbol: 1 });
        holds_at(rt, m, found == want);
    }
    let program = object_of(&joining, 0)?;
    let slot = (0x10010, R_ARM_FUNCDESC_VALUE, 1);
    holds(
        rt,
        answer_at(&linker, alloc, program, slot, b"foo") == pair(1, 0x300),
    );
    Ok(())
}

/// Symbols 1 to 9 of a module.
const SYMBOLS: [Entry<'static>; 9] = [
    (b"weak", WEAK_FUNC, Place::Undefined, 0),
    (b"strong", FUNC, Place::Undefined, 0),
    (b"absolute", HIDDEN_FUNC, Place::Absolute, 0x300),
    (b"odd", HIDDEN_FUNC, HERE, 0x302),
    (b"data", HIDDEN_FUNC, HERE, 0x10000),
    (b"hidden", HIDDEN_FUNC, HERE, 0x120),
    (b"outside", HIDDEN_FUNC, HERE, 0x600),
    (b"hidden", HIDDEN_FUNC, Place::Undefined, 0),
    (b"", SECTION, HERE, 0x200),
];

/// What these kinds of relocation on these symbols, whose names are told, mean.
fn symbol_rows() -> [(u8, u32, &'static [u8], Answer); 16] {
    let none = Answer::Value(SiteValue::Pair(None));
    let no_descriptor = Answer::Value(SiteValue::Descriptor(None));
    [
        (R_ARM_FUNCDESC_VALUE, 1, b"weak", none),
        (R_ARM_FUNCDESC, 1, b"weak", no_descriptor),
        (R_ARM_ABS32, 1, b"weak", formula(Value::Number(0))),
        (R_ARM_FUNCDESC, 2, b"strong", Answer::Unresolved(0)),
        (R_ARM_ABS32, 2, b"strong", Answer::Unresolved(0)),
        (R_ARM_FUNCDESC_VALUE, 3, b"absolute", Answer::NotCode(0)),
        (R_ARM_ABS32, 3, b"absolute", formula(Value::Number(0x300))),
        (R_ARM_FUNCDESC, 4, b"odd", Answer::NotCode(0)),
        (R_ARM_FUNCDESC, 5, b"data", Answer::NotCode(0)),
        (R_ARM_FUNCDESC, 6, b"hidden", descriptor(0, 0x120)),
        (R_ARM_FUNCDESC, 7, b"outside", Answer::NotCode(0)),
        (R_ARM_ABS32, 7, b"outside", Answer::BadAddress(0, 0x10010)),
        (R_ARM_FUNCDESC, 8, b"hidden", descriptor(1, 0x400)),
        (R_ARM_FUNCDESC, 9, b"", descriptor(0, 0x300)),
        (R_ARM_FUNCDESC_VALUE, 9, b"", pair(0, 0x300)),
        (R_ARM_ABS32, 9, b"", formula(Value::Address(func(0, 0x200)))),
    ]
}

fn what_symbols_mean(rt: &impl Abort, alloc: Global) -> Result<(), Fail> {
    let rows: [Row; 2] = [
        (
            false,
            &SYMBOLS,
            [(R_ARM_FUNCDESC, 9, 0x100), FILLER, FILLER, FILLER],
        ),
        (false, &[(b"hidden", FUNC, HERE, 0x400)], [FILLER; 4]),
    ];
    let joining = modules(alloc, &rows)?;
    let tables = tables_of(rt, alloc, joining.as_slice())?;
    let process = no_process(alloc);
    let scope = Numbers::from_slice(alloc, &[1, 0])?;
    let linker = linker_of(&process, joining.as_slice(), &scope, &tables);
    let o = object_of(&joining, 0)?;
    for (kind, symbol, name, want) in symbol_rows() {
        let answer = answer_at(&linker, alloc, o, (0x10010, kind, symbol), name);
        holds_at(rt, kind, answer == want);
    }
    Ok(())
}

fn what_addends_mean(rt: &impl Abort, alloc: Global) -> Result<(), Fail> {
    let sites = [
        (R_ARM_RELATIVE, 0, 0x50),
        (R_ARM_RELATIVE, 0, 0x500),
        (R_ARM_RELATIVE, 0, 0x10101),
        (R_ARM_FUNCDESC, 0, 0x4fc),
    ];
    let rows: [Row; 1] = [(false, &[], sites)];
    let joining = modules(alloc, &rows)?;
    let tables = tables_of(rt, alloc, joining.as_slice())?;
    let process = no_process(alloc);
    let scope = Numbers::from_slice(alloc, &[0])?;
    let linker = linker_of(&process, joining.as_slice(), &scope, &tables);
    let o = object_of(&joining, 0)?;
    let rows = [
        (0x10010, R_ARM_RELATIVE, Answer::BadAddress(0, 0x10010)),
        (0x10018, R_ARM_RELATIVE, place(0, 0x500)),
        (0x10020, R_ARM_RELATIVE, Answer::BadAddress(0, 0x10020)),
        (0x10028, R_ARM_FUNCDESC, descriptor(0, 0x4fc)),
        (0x10028, R_ARM_FUNCDESC_VALUE, pair(0, 0x4fc)),
        (0x10018, R_ARM_FUNCDESC, Answer::BadAddress(0, 0x10018)),
        (0x10018, R_ARM_ABS32, formula(Value::Number(0))),
    ];
    for (site, kind, want) in rows {
        let answer = answer_at(&linker, alloc, o, (site, kind, 0), b"");
        holds_at(rt, site, answer == want);
    }
    Ok(())
}

/// A module with two private descriptors of one function, and one that asks for four descriptors.
const ASKING: [Row<'static>; 2] = [
    (
        false,
        &[
            (b"foo", FUNC, Place::Undefined, 0),
            (b"", SECTION, HERE, 0x200),
        ],
        [
            (R_ARM_FUNCDESC_VALUE, 0, 0x300),
            (R_ARM_FUNCDESC, 1, 0),
            (R_ARM_FUNCDESC_VALUE, 2, 0x100),
            (R_ARM_FUNCDESC, 0, 0x300),
        ],
    ),
    (
        false,
        &[
            (b"foo", FUNC, HERE, 0x300),
            (b"bar", HIDDEN_FUNC, HERE, 0x340),
            (b"none", WEAK_FUNC, Place::Undefined, 0),
        ],
        [
            (R_ARM_FUNCDESC, 1, 0),
            (R_ARM_FUNCDESC, 2, 0),
            (R_ARM_FUNCDESC, 3, 0),
            (R_ARM_FUNCDESC, 0, 0x400),
        ],
    ),
];

fn who_needs_a_slot(rt: &impl Abort, alloc: Global) -> Result<(), Fail> {
    let joining = modules(alloc, &ASKING)?;
    let tables = tables_of(rt, alloc, joining.as_slice())?;
    let process = no_process(alloc);
    let scope = Numbers::from_slice(alloc, &[0, 1])?;
    let linker = linker_of(&process, joining.as_slice(), &scope, &tables);
    let Ok(values) = linker.values(alloc) else {
        panic!(rt; "refused");
    };
    let privates = linker.privates(alloc, values.as_slice())?;
    let twice = [(func(0, 0x300), 0x10010), (func(0, 0x300), 0x10020)];
    same(rt, privates.as_slice(), twice.as_slice());
    let mut had = DescPool::new(alloc, 0x3000, 1)?;
    holds(rt, had.ensure(&func(1, 0x340)).is_ok());
    let wanted = linker.wanted(alloc, &had, privates.as_slice(), values.as_slice())?;
    let each_once = [func(1, 0x300), func(1, 0x400)];
    same(rt, wanted.as_slice(), each_once.as_slice());
    Ok(())
}

fn first_site_is_refused(rt: &impl Abort, alloc: Global) -> Result<(), Fail> {
    let bad = (R_ARM_RELATIVE, 0, 0x50);
    let rows: [Row; 2] = [
        (false, &[], [FILLER, FILLER, bad, bad]),
        (false, &[], [bad, FILLER, FILLER, FILLER]),
    ];
    let joining = modules(alloc, &rows)?;
    let tables = tables_of(rt, alloc, joining.as_slice())?;
    let process = no_process(alloc);
    let scope = Numbers::from_slice(alloc, &[0, 1])?;
    let linker = linker_of(&process, joining.as_slice(), &scope, &tables);
    let refused = match linker.values(alloc) {
        Err(LoadErr::Refused(LoadRefusal::BadAddress(m, site))) => Some((m, site)),
        _ => None,
    };
    same(rt, refused, Some((0, 0x10020)));
    Ok(())
}

#[test]
fn meanings(rt: HostRuntime) -> Result<(), Fail> {
    first_definition_wins(&rt, rt.alloc())?;
    what_symbols_mean(&rt, rt.alloc())?;
    what_addends_mean(&rt, rt.alloc())
}

#[test]
fn whole_loads(rt: HostRuntime) -> Result<(), Fail> {
    who_needs_a_slot(&rt, rt.alloc())?;
    first_site_is_refused(&rt, rt.alloc())
}
