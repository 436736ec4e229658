//! What loading writes at a site.

ghost use Rattle.std.specs.Prelude.{◌≡◌, ◌+◌, ◌^◌, ◌≤◌, IfOk, IfErr};
ghost use Rattle.load_model.specs.Definition.{name_at};
ghost use Rattle.load_model.specs.Sites as spec;
ghost use Rattle.load_sites.specs.parts.Answers.{Tells};
ghost use Rattle.load_sites.specs.parts.Linker.{linkage, IsReady};
ghost use Rattle.load_sites.specs.parts.Sites.{own_function};

use crate::linker::Linker;
use elf_model::constants::{R_ARM_FUNCDESC, R_ARM_FUNCDESC_VALUE, R_ARM_RELATIVE, STT_SECTION};
use elf_model::{Func, Object, Rel, file_word};
use fd_base::{Memory, Name};
use load_model::{Definition, LoadErr, LoadRefusal, SiteValue, Value};
use std::alloc::Global;

fn copied(alloc: Global, name: &Option<Name>) -> Result<Option<Name>, Memory>
    ensures { IfOk result (λ copy. copy ≡ name.now) }
{
    match name {
        Some(name) => Ok(Some(name.copy(alloc)?)),
        None => Ok(None),
    }
}

/// The name of a symbol, if any.
fn name_at(alloc: Global, o: &Object, s: u32) -> Result<Option<Name>, Memory>
    ensures { IfOk result (λ name. name ≡ name_at o.entry.now s) }
{
    match o.symbols.as_slice().get(s as usize) {
        Some(symbol) => copied(alloc, &symbol.name),
        None => Ok(None),
    }
}

/// The file's word at the site.
fn addend_of(o: &Object, r: &Rel) -> u32
    requires { r.now.site + 4 ≤ 2 ^ 32 }
    ensures { result ≡ spec.addend_of o.entry.now r.now }
{
    file_word(o.segments.as_slice(), r.site)
}

/// Whether the addend tells what a reference by this symbol means.
fn is_unnamed(o: &Object, s: u32) -> bool
    ensures { result ≡ spec.is_unnamed o.entry.now s }
{
    if s == 0 {
        return true;
    }
    match o.symbols.as_slice().get(s as usize) {
        Some(symbol) => symbol.kind == STT_SECTION,
        None => false,
    }
}

/// The link address from which such an addend counts.
fn base_of(o: &Object, s: u32) -> u32
    ensures { result ≡ spec.base_of o.entry.now s }
{
    if s == 0 {
        return 0;
    }
    match o.symbols.as_slice().get(s as usize) {
        Some(symbol) => symbol.value,
        None => 0,
    }
}

/// The link address of the module itself that such a reference names.
fn own_address(m: u32, o: &Object, r: &Rel) -> Func
    requires { r.now.site + 4 ≤ 2 ^ 32 }
    ensures { result ≡ spec.own_address m o.entry.now r.now }
{
    Func {
        module: m,
        value: addend_of(o, r).wrapping_add(base_of(o, r.symbol)),
    }
}

impl<'a> Linker<'a> {
    fn placed_value(&self, m: u32, site: u32, value: Value) -> Result<Value, LoadErr>
        ensures value { IfOk result (λ v. spec.placed_value (linkage self.now) m site value ≡ Ok v) }
        ensures error { IfErr result (Tells (λ x. spec.placed_value (linkage self.now) m site value ≡ Err x)) }
    {
        match value {
            Value::Number(_) => Ok(value),
            Value::Address(f) if self.is_placed(f) => Ok(value),
            Value::Address(_) => Err(LoadErr::Refused(LoadRefusal::BadAddress(m, site))),
        }
    }

    fn value_for(
        &self,
        alloc: Global,
        m: u32,
        o: &Object,
        r: &Rel,
        definition: Definition,
    ) -> Result<Value, LoadErr>
        ensures value { IfOk result (λ v. spec.value_for (linkage self.now) m o.entry.now r.now definition ≡ Ok v) }
        ensures error { IfErr result (Tells (λ x. spec.value_for (linkage self.now) m o.entry.now r.now definition ≡ Err x)) }
    {
        match definition {
            Definition::Symbol(found) => self.placed_value(m, r.site, self.value_of(found)),
            Definition::Nothing => Ok(Value::Number(0)),
            Definition::Unresolved => {
                let name = name_at(alloc, o, r.symbol)?;
                Err(LoadErr::Refused(LoadRefusal::Unresolved(m, name)))
            }
        }
    }

    /// The value of the symbol of a relocation.
    fn value_at(&self, alloc: Global, m: u32, o: &Object, r: &Rel) -> Result<Value, LoadErr>
        requires { IsReady self.now }
        ensures value { IfOk result (λ v. spec.value_at (linkage self.now) m o.entry.now r.now ≡ Ok v) }
        ensures error { IfErr result (Tells (λ x. spec.value_at (linkage self.now) m o.entry.now r.now ≡ Err x)) }
    {
        if r.symbol == 0 {
            return Ok(Value::Number(0));
        }
        self.value_for(alloc, m, o, r, self.definition(m, o, r.symbol))
    }

    fn coded_value(
        &self,
        alloc: Global,
        m: u32,
        o: &Object,
        s: u32,
        value: Value,
    ) -> Result<Option<Func>, LoadErr>
        ensures value { IfOk result (λ f. spec.coded_value (linkage self.now) m (name_at o.entry.now s) value ≡ Ok f) }
        ensures error { IfErr result (Tells (λ x. spec.coded_value (linkage self.now) m (name_at o.entry.now s) value ≡ Err x)) }
    {
        match value {
            Value::Address(f) if self.is_code(f) => Ok(Some(f)),
            Value::Address(_) | Value::Number(_) => {
                let name = name_at(alloc, o, s)?;
                Err(LoadErr::Refused(LoadRefusal::NotCode(m, name)))
            }
        }
    }

    fn function_for(
        &self,
        alloc: Global,
        m: u32,
        o: &Object,
        r: &Rel,
        definition: Definition,
    ) -> Result<Option<Func>, LoadErr>
        ensures value { IfOk result (λ f. spec.function_for (linkage self.now) m o.entry.now r.now definition ≡ Ok f) }
        ensures error { IfErr result (Tells (λ x. spec.function_for (linkage self.now) m o.entry.now r.now definition ≡ Err x)) }
    {
        match definition {
            Definition::Symbol(found) => {
                self.coded_value(alloc, m, o, r.symbol, self.value_of(found))
            }
            Definition::Nothing => Ok(None),
            Definition::Unresolved => {
                let name = name_at(alloc, o, r.symbol)?;
                Err(LoadErr::Refused(LoadRefusal::Unresolved(m, name)))
            }
        }
    }

    /// The function of the module itself that the addend tells.
    fn own_function(&self, m: u32, o: &Object, r: &Rel) -> Result<Option<Func>, LoadErr>
        requires { r.now.site + 4 ≤ 2 ^ 32 }
        ensures value { IfOk result (λ f. own_function (linkage self.now) m o.entry.now r.now ≡ Ok f) }
        ensures error { IfErr result (Tells (λ x. own_function (linkage self.now) m o.entry.now r.now ≡ Err x)) }
    {
        let f = own_address(m, o, r);
        if self.is_code(f) {
            Ok(Some(f))
        } else {
            Err(LoadErr::Refused(LoadRefusal::BadAddress(m, r.site)))
        }
    }

    /// The function that a site refers to.
    fn function_at(
        &self,
        alloc: Global,
        m: u32,
        o: &Object,
        r: &Rel,
    ) -> Result<Option<Func>, LoadErr>
        requires ready { IsReady self.now }
        requires end { r.now.site + 4 ≤ 2 ^ 32 }
        ensures value { IfOk result (λ f. spec.function_at (linkage self.now) m o.entry.now r.now ≡ Ok f) }
        ensures error { IfErr result (Tells (λ x. spec.function_at (linkage self.now) m o.entry.now r.now ≡ Err x)) }
    {
        if is_unnamed(o, r.symbol) {
            return self.own_function(m, o, r);
        }
        self.function_for(alloc, m, o, r, self.definition(m, o, r.symbol))
    }

    /// The link address of the module itself that the addend alone tells.
    fn relative_at(&self, m: u32, o: &Object, r: &Rel) -> Result<Func, LoadErr>
        requires { r.now.site + 4 ≤ 2 ^ 32 }
        ensures value { IfOk result (λ f. spec.relative_at (linkage self.now) m o.entry.now r.now ≡ Ok f) }
        ensures error { IfErr result (Tells (λ x. spec.relative_at (linkage self.now) m o.entry.now r.now ≡ Err x)) }
    {
        let f = Func {
            module: m,
            value: addend_of(o, r),
        };
        if self.is_placed(f) {
            Ok(f)
        } else {
            Err(LoadErr::Refused(LoadRefusal::BadAddress(m, r.site)))
        }
    }

    /// What loading writes at a site `r` of module `m`, whose object is `o`. The refusals are `Unresolved`,
    /// `NotCode` and `BadAddress`.
    #[tactic(auto, using(crate::proofs::ToldErrors::told), unfolding(load_model::specs::Sites::site_value))]
    pub fn site_value(
        &self,
        alloc: Global,
        m: u32,
        o: &Object,
        r: &Rel,
    ) -> Result<SiteValue, LoadErr>
        requires ready { IsReady self.now }
        requires end { r.now.site + 4 ≤ 2 ^ 32 }
        ensures value { IfOk result (λ v. spec.site_value (linkage self.now) m o.entry.now r.now ≡ Ok v) }
        ensures error { IfErr result (Tells (λ x. spec.site_value (linkage self.now) m o.entry.now r.now ≡ Err x)) }
    {
        match r.kind {
            R_ARM_RELATIVE => Ok(SiteValue::Place(self.relative_at(m, o, r)?)),
            R_ARM_FUNCDESC => Ok(SiteValue::Descriptor(self.function_at(alloc, m, o, r)?)),
            R_ARM_FUNCDESC_VALUE => Ok(SiteValue::Pair(self.function_at(alloc, m, o, r)?)),
            _ => Ok(SiteValue::Formula(self.value_at(alloc, m, o, r)?)),
        }
    }
}
