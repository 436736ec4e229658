//! What holds of the layout of memory itself. A call of one does nothing.

ghost use Rattle.std.specs.Prelude.{◌≡◌, ◌≢◌, ℕ, ◌≤◌, true, List, [], ◌∷◌, Some, None, All, length};
ghost use Rattle.load_map.specs.declared.entry.MapEntry.{MapEntry};
ghost use Rattle.elf_model.specs.declared.object.Segment.{Segment};
ghost use Rattle.guest_mem.specs.declared.kind.MemKind.{MemKind};
ghost use Rattle.guest_mem.specs.declared.kind.MemKind.TheVariants.{Data};
ghost use Rattle.guest_mem.specs.Accesses.{with_bytes};
ghost use Rattle.guest_mem.specs.parts.Kept.{Keeps, SameMap};
ghost use Rattle.guest_mem.specs.Memory.{HaveKind, GuestMemory, byte_at, is_watched};
ghost use Rattle.load_map.specs.Whole.{PlacedApart};
ghost use Rattle.load_model.specs.declared.plan.MemPlan.{MemPlan};
ghost use Rattle.symbol_scope.specs.declared.tables.TheConstants.{MAX_MODULES};
ghost use Rattle.load_model.specs.Image.{load_map_at};
ghost use Rattle.load_model.specs.Layout.{InMemory, IsLaidOut, LiesAt, WatchesAt, bytes_of_words, fixed_kind, kind_of_segment};
ghost use Rattle.fd_base.specs.Ranges.{is_in};
ghost use Rattle.load_model.specs.Plan.{Fits, high_of, low_of};
ghost use Rattle.load_memory.specs.parts.PlacingSteps.{LiesWithin};

/// What is laid out depends on the object and the load map of each number, and on nothing else of the modules.
pub fn layouts_agree()
    ensures { (plan : MemPlan) (mods others : InMemory) (memory : GuestMemory) → ((m : ℕ) → others.objects m ≡ mods.objects m) →
        ((m : ℕ) → others.maps m ≡ mods.maps m) → IsLaidOut plan mods memory → IsLaidOut plan others memory }
{}

/// Memory that is mapped and marked alike is laid out alike. So descriptors that are put leave it laid out.
pub fn put_pairs_keep_layout()
    ensures alike { (plan : MemPlan) (mods : InMemory) (old new : GuestMemory) → SameMap old new → IsLaidOut plan mods old → IsLaidOut plan mods new }
    ensures pair { (plan : MemPlan) (mods : InMemory) (old : GuestMemory) (addr code got : ℕ) → IsLaidOut plan mods old →
        IsLaidOut plan mods (with_bytes old addr (bytes_of_words (code ∷ got ∷ []))) }
{}

/// Whatever stores do, memory stays laid out, and what they may not change stays: the headers of GOTs and the
/// descriptors of modules, what lies below the modules, and each segment that isn't mapped as Data.
pub fn stores_keep()
    ensures layout { (plan : MemPlan) (mods : InMemory) (old new : GuestMemory) → Keeps old new → IsLaidOut plan mods old → IsLaidOut plan mods new }
    ensures watched { (plan : MemPlan) (mods : InMemory) (old new : GuestMemory) (m start len a : ℕ) → Keeps old new → IsLaidOut plan mods old →
        WatchesAt mods m start len → is_in start len a ≡ true → (is_watched new a ≡ true) × (byte_at new a ≡ byte_at old a) }
    ensures fixed { (plan : MemPlan) (mods : InMemory) (old new : GuestMemory) (a : ℕ) (kind : MemKind) → Keeps old new → IsLaidOut plan mods old →
        fixed_kind plan a ≡ Some kind → kind ≢ Data → byte_at new a ≡ byte_at old a }
    ensures segments { (plan : MemPlan) (mods : InMemory) (old new : GuestMemory) (m a : ℕ) (s : Segment) (e : MapEntry) → Keeps old new → IsLaidOut plan mods old →
        LiesAt mods m s e → kind_of_segment s ≢ Data → is_in e.addr e.memsz a ≡ true → byte_at new a ≡ byte_at old a }
{}

/// Ranges where modules may lie, apart from the segments that are there, are free and above the load maps.
pub fn room_is_free()
    ensures tables { (plan : MemPlan) (mods : InMemory) (memory : GuestMemory) → Fits plan → IsLaidOut plan mods memory → load_map_at MAX_MODULES ≤ length memory.bytes }
    ensures inside { (plan : MemPlan) (mods : InMemory) (memory : GuestMemory) (load_map : List MapEntry) → Fits plan → IsLaidOut plan mods memory →
        All (LiesWithin (low_of plan) (high_of plan)) load_map → All (LiesWithin (load_map_at MAX_MODULES) (length memory.bytes)) load_map }
    ensures free { (plan : MemPlan) (mods : InMemory) (memory : GuestMemory) (load_map : List MapEntry) → Fits plan → IsLaidOut plan mods memory →
        All (LiesWithin (low_of plan) (high_of plan)) load_map →
        ((m : ℕ) (s : Segment) (d : MapEntry) → LiesAt mods m s d → All (PlacedApart d) load_map) →
        All (λ e. HaveKind memory e.addr e.memsz None) load_map }
{}
