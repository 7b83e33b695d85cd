ghost use Rattle.std.specs.Prelude.{◌≡◌, ◌≢◌, ◌≤◌, ◌↔◌, ℕ, true, false, List, [], length, Ok, Err, IsOk, Some};
ghost use Rattle.vm_model.specs.declared.limits.TheConstants.{MOST_TEXT_BYTES};
ghost use Rattle.vm_model.specs.Program.{PlainMethod, PlainProgram, method_at};
ghost use Rattle.vm_model.specs.Plain.{IsWithinBounds};
ghost use Rattle.jasmin_text.specs.declared.token.Token.{Token};
ghost use Rattle.jasmin_text.specs.Texts.{tokens_of};
ghost use Rattle.jasmin_lines.specs.Plain.{PlainClassText};
ghost use Rattle.jasmin_lines.specs.declared.lexeme.Lexeme.{Lexeme};
ghost use Rattle.jasmin_lines.specs.Said.{PlainSaid};
ghost use Rattle.jasmin_lines.specs.Instructions.{instruction};
ghost use Rattle.jasmin_reader.specs.Reading.{reading};
ghost use Rattle.class_linker.specs.declared.fault.Refusal.{Refusal};
ghost use Rattle.name_resolver.specs.declared.fault.LinkKind.TheVariants.{OutOfProfile};
ghost use Rattle.name_resolver.specs.Index.{Rows};
ghost use Rattle.name_resolver.specs.Names.{names_of};
ghost use Rattle.class_linker.specs.Linked.{linked_by};
ghost use Rattle.class_linker.specs.Linking.{linking};
ghost use Rattle.shape_laws.specs.Linked.{IsWellLinked, NamesWhatIsThere};
ghost use Rattle.linking_laws.specs.Limits.{KeepsLimits, HasFewClasses, HasFewFields, HasFewMethods, HasFewStatics, HasFewTexts, HasShortTexts};
ghost use Rattle.linking_laws.specs.LinkFaults.{IsFirst, declaration_faults, body_faults, has_main, no_main};
ghost use Rattle.linking_laws.specs.Named.{AreNamed, AreWritten};
ghost use Rattle.linking_laws.specs.Links.{Links};
ghost use Rattle.linking_laws.specs.Outside.{IsKnownText, is_out_of_profile};
ghost use Rattle.linking_laws.specs.Rules.{IsCountable};
ghost use Rattle.linking_laws.specs.FirstFault.{IsFirstFault, IsFaultless};

/// The names of the classes and the methods of a text that is read have the forms of names.
pub fn read_classes_are_named()
    ensures { (text : List ℕ) (tokens : List Token) (classes : List PlainClassText) → reading text tokens ≡ Ok classes → AreNamed classes }
{}

/// Linking gives what the laws of verified programs need: a class's `run` is its own, `main` is static and takes its
/// argument, a static begins with a value of its kind, and Thread's own `run` is there. The first law is on classes whose
/// names have the forms of names, the second on those of a text that is read.
pub fn linked_program_is_well_linked()
    ensures named { (classes : List PlainClassText) (p : PlainProgram) → AreNamed classes → linking classes ≡ Ok p → IsWellLinked p }
    ensures read { (text : List ℕ) (tokens : List Token) (classes : List PlainClassText) (p : PlainProgram) → reading text tokens ≡ Ok classes → linking classes ≡ Ok p → IsWellLinked p }
{}

/// A linked program names only what is there: classes of objects, text constants, and the classes of its methods.
pub fn linked_program_names_what_is_there()
    ensures { (classes : List PlainClassText) (p : PlainProgram) → linking classes ≡ Ok p → NamesWhatIsThere p }
{}

/// A linked program is within the bounds that a machine needs. It has at most 1,024 methods and Thread's own `run`.
pub fn linked_program_is_small()
    ensures small { (classes : List PlainClassText) (p : PlainProgram) → linking classes ≡ Ok p → IsWithinBounds p }
    ensures methods { (classes : List PlainClassText) (p : PlainProgram) → linking classes ≡ Ok p → length p.methods ≤ 1025 }
{}

/// Each method of a linked program keeps the limits: 16 parameters, 16,384 instructions, 1,024 operands, 256 locals.
pub fn linked_methods_keep_limits()
    ensures { (classes : List PlainClassText) (p : PlainProgram) (k : ℕ) (m : PlainMethod) → linking classes ≡ Ok p → method_at p k ≡ Some m → KeepsLimits m }
{}

/// A linked program keeps the limits of a program as a whole: 256 classes, 1,024 methods and Thread's own `run`, 1,024
/// statics, 64 fields of a class, and text constants of 200 bytes. It has at most as many of these as 1,024 methods have
/// instructions: far fewer than are counted.
pub fn linked_program_keeps_limits()
    ensures classes { (classes : List PlainClassText) (p : PlainProgram) → linking classes ≡ Ok p → HasFewClasses p }
    ensures methods { (classes : List PlainClassText) (p : PlainProgram) → linking classes ≡ Ok p → HasFewMethods p }
    ensures statics { (classes : List PlainClassText) (p : PlainProgram) → linking classes ≡ Ok p → HasFewStatics p }
    ensures fields { (classes : List PlainClassText) (p : PlainProgram) → linking classes ≡ Ok p → HasFewFields p }
    ensures texts { (classes : List PlainClassText) (p : PlainProgram) → linking classes ≡ Ok p → HasShortTexts p }
    ensures numbers { (classes : List PlainClassText) (p : PlainProgram) → linking classes ≡ Ok p → HasFewTexts p }
{}

/// Linking gives the program of its classes: the classes with every name replaced by its number. The first law is on classes
/// whose names and lines have their forms, the second on those of a text that is read.
pub fn linked_program_is_of_its_classes()
    ensures written { (classes : List PlainClassText) (p : PlainProgram) → AreNamed classes → AreWritten classes → linking classes ≡ Ok p → Links classes p }
    ensures read { (text : List ℕ) (tokens : List Token) (classes : List PlainClassText) (p : PlainProgram) → reading text tokens ≡ Ok classes → linking classes ≡ Ok p → Links classes p }
{}

/// Classes have at most one program, and linking gives it exactly where nothing is wrong with their declarations and their
/// bodies. The last two laws are on classes whose names and lines have their forms, and on those of a text that is read.
pub fn classes_have_one_program()
    ensures only { (classes : List PlainClassText) (p q : PlainProgram) → Links classes p → Links classes q → p ≡ q }
    ensures exactly { (classes : List PlainClassText) (p : PlainProgram) → AreNamed classes → AreWritten classes → (linking classes ≡ Ok p) ↔ (Links classes p × (declaration_faults classes ≡ []) × (body_faults classes ≡ [])) }
    ensures read { (text : List ℕ) (tokens : List Token) (classes : List PlainClassText) (p : PlainProgram) → reading text tokens ≡ Ok classes → (linking classes ≡ Ok p) ↔ (Links classes p × (declaration_faults classes ≡ []) × (body_faults classes ≡ [])) }
{}

/// Of the instructions that are read those are out of the profile, by themselves, whose mnemonics are no part of the
/// language, `newarray` of anything but ints, and `new` of a class without objects. The classes are those of the program,
/// and each of its text constants has a number.
pub fn instructions_out_of_profile()
    ensures { (classes : List PlainClassText) (words : List Lexeme) (said : PlainSaid) (run : ℕ) (texts labels : Rows) → instruction words ≡ Ok said → IsKnownText texts said.operands → (linked_by (names_of classes).1 run texts labels said.word said.operands ≡ Err OutOfProfile) ↔ (is_out_of_profile said.word said.operands ≡ true) }
{}

/// The fault that linking names is one of the text's, and none of the same part comes before it; faults of bodies are named
/// only where declarations have none, and a missing main only where bodies have none either. Classes are linked exactly where
/// there is no fault, and a main.
pub fn named_fault_is_first()
    ensures declarations { (classes : List PlainClassText) (f : Refusal) → declaration_faults classes ≢ [] → (linking classes ≡ Err f) ↔ IsFirst (declaration_faults classes) f }
    ensures bodies { (classes : List PlainClassText) (f : Refusal) → declaration_faults classes ≡ [] → body_faults classes ≢ [] → (linking classes ≡ Err f) ↔ IsFirst (body_faults classes) f }
    ensures main { (classes : List PlainClassText) (f : Refusal) → declaration_faults classes ≡ [] → body_faults classes ≡ [] → (linking classes ≡ Err f) ↔ ((has_main classes ≡ false) × (f ≡ no_main)) }
    ensures linked { (classes : List PlainClassText) → IsOk (linking classes) ↔ ((declaration_faults classes ≡ []) × (body_faults classes ≡ []) × (has_main classes ≡ true)) }
{}

/// By the rules, which say which faults a text has, a case for each: linking names the fault that counts among those of a
/// text, and gives a program exactly where there is none. The first two laws are on classes whose names are as the reader lets
/// them through, and of which fewer than 2^31 are declared, as of fields and methods. The other two are on the classes of each
/// text of at most 1,048,576 bytes that is cut into tokens and read, which is every text that the program takes.
pub fn linking_is_by_the_rules()
    ensures named { (classes : List PlainClassText) (f : Refusal) → AreNamed classes → IsCountable classes → (linking classes ≡ Err f) ↔ IsFirstFault classes f }
    ensures linked { (classes : List PlainClassText) → AreNamed classes → IsCountable classes → IsOk (linking classes) ↔ IsFaultless classes }
    ensures read { (text : List ℕ) (tokens : List Token) (classes : List PlainClassText) (f : Refusal) → length text ≤ MOST_TEXT_BYTES → tokens_of text ≡ Ok tokens → reading text tokens ≡ Ok classes → (linking classes ≡ Err f) ↔ IsFirstFault classes f }
    ensures faultless { (text : List ℕ) (tokens : List Token) (classes : List PlainClassText) → length text ≤ MOST_TEXT_BYTES → tokens_of text ≡ Ok tokens → reading text tokens ≡ Ok classes → IsOk (linking classes) ↔ IsFaultless classes }
{}
