ghost use Rattle.std.specs.Prelude.{◌≡◌, ◌≤◌, ◌↔◌, ◌++◌, ℕ, ℤ, false, true, List, [], Contains, length, drop, Some, Ok, Err};
ghost use Rattle.std.specs.Fmt.{signed_decimal};
ghost use Rattle.std.specs.List.{AllByRecursion};
ghost use Rattle.jasmin_text.specs.declared.token.Token.{Token};
ghost use Rattle.jasmin_text.specs.Numbers.{number_of};
ghost use Rattle.jasmin_text.specs.Pieces.{string_after};
ghost use Rattle.jasmin_text.specs.Texts.{tokens_of};
ghost use Rattle.jasmin_lines.specs.declared.fault.ReadKind.{ReadKind};
ghost use Rattle.jasmin_reader.specs.declared.fault.Refusal.{Refusal};
ghost use Rattle.jasmin_lines.specs.declared.form.Form.{Form};
ghost use Rattle.jasmin_lines.specs.declared.lexeme.Lexeme.{Lexeme};
ghost use Rattle.jasmin_reader.specs.Assembly.{classes_of};
ghost use Rattle.jasmin_writer.specs.Canonical.{quoted, canonical};
ghost use Rattle.jasmin_lines.specs.Forms.{form_of};
ghost use Rattle.jasmin_reader.specs.Grammar.{form_among};
ghost use Rattle.jasmin_lines.specs.Lexemes.{PlainLine, lines_after};
ghost use Rattle.jasmin_lines.specs.Plain.{PlainClassText};
ghost use Rattle.jasmin_reader.specs.Reading.{reading};
ghost use Rattle.text_laws.specs.ClassRules.{AreClassesOf};
ghost use Rattle.text_laws.specs.LineFaults.{IsFirst, forms_alone, line_faults};
ghost use Rattle.text_laws.specs.LineRules.{HasFault, IsLeast, HasNone, IsFaultOfText, IsLeastOfText, state_after};
ghost use Rattle.text_laws.specs.Sizes.{IsSmall, is_quotable};
ghost use Rattle.text_laws.specs.Spelled.{spelled, IsSpellableLine};
ghost use Rattle.text_laws.specs.Tokens.{AreTokens};
ghost use Rattle.text_laws.specs.WordRules.{IsSpoiled, HasForm, HaveForms};
ghost use Rattle.text_laws.specs.Alike.{HasLines, AreAlike, ReadsAlike};

/// What is read from a text is the one list of tokens that it has by the rules on its bytes, and where nothing can be read
/// there is no such list. Only the empty text has none.
pub fn tokens_follow_the_bytes()
    ensures read { (text : List ℕ) (tokens : List Token) → (tokens_of text ≡ Ok tokens) ↔ AreTokens text tokens }
    ensures one { (text : List ℕ) (tokens : List Token) (others : List Token) → AreTokens text tokens → AreTokens text others → tokens ≡ others }
    ensures none { (text : List ℕ) → AreTokens text [] ↔ (text ≡ []) }
{}

/// A number of 32 bits is read from what is written of it.
pub fn numbers_read_back()
    ensures { (n : ℤ) → IsSmall n → number_of (signed_decimal n) ≡ Some n }
{}

/// A text between quotes is read from what is written of it, whatever comes after it.
pub fn strings_read_back()
    ensures { (text behind : List ℕ) → is_quotable text ≡ true → string_after false 1 (drop 1 (quoted text) ++ behind) ≡ Ok (text, length (quoted text)) }
{}

/// Lines of words that are spelled, a line feed after each, read as these lines, numbered from 1 on.
pub fn lines_read_back()
    ensures { (lines : List (List Lexeme)) → AllByRecursion IsSpellableLine lines → HasLines (spelled lines) lines }
{}

/// The canonical text of classes that were read reads as the same classes in all but line numbers.
pub fn canonical_text_reads_the_same()
    ensures { (text : List ℕ) (tokens : List Token) (classes : List PlainClassText) → tokens_of text ≡ Ok tokens → reading text tokens ≡ Ok classes → ReadsAlike (canonical classes) classes }
{}

/// Two texts that were read have the same canonical text exactly if their classes are the same in all but line numbers.
pub fn canonical_text_tells_classes_apart()
    ensures { (text : List ℕ) (tokens : List Token) (classes : List PlainClassText) (second : List ℕ) (second_tokens : List Token) (others : List PlainClassText) → tokens_of text ≡ Ok tokens → reading text tokens ≡ Ok classes → tokens_of second ≡ Ok second_tokens → reading second second_tokens ≡ Ok others → (canonical classes ≡ canonical others) ↔ AreAlike classes others }
{}

/// The fault that reading names is the first of the text's, and no line before that one has any. A text is read exactly where
/// no line has a fault, and then its classes are those of its lines' forms, each read by itself.
pub fn named_line_is_first()
    ensures refused { (text : List ℕ) (tokens : List Token) (f : Refusal) → (reading text tokens ≡ Err f) ↔ IsFirst (line_faults text tokens) f }
    ensures before { (text : List ℕ) (tokens : List Token) (f : Refusal) (g : Refusal) → tokens_of text ≡ Ok tokens → reading text tokens ≡ Err f → Contains (line_faults text tokens) g → f.line ≤ g.line }
    ensures read { (text : List ℕ) (tokens : List Token) (classes : List PlainClassText) → (reading text tokens ≡ Ok classes) ↔ ((line_faults text tokens ≡ []) × (classes ≡ classes_of (forms_alone (lines_after text [] tokens)))) }
{}

/// The fault of a line, by itself and among others, is the least of all that it has by the rules, and it has its form where it
/// has none. Reading names the first line that has a fault, with the least of that line; a text without faults is read.
pub fn named_fault_is_least()
    ensures alone { (n : ℕ) (words : List Lexeme) (kind : ReadKind) → (form_of n words ≡ Err kind) ↔ IsLeast (IsSpoiled words) kind }
    ensures said { (n : ℕ) (words : List Lexeme) → ((f : Form) × (form_of n words ≡ Ok f)) ↔ HasNone (IsSpoiled words) }
    ensures line { (before : List Form) (line : PlainLine) (behind : List PlainLine) (kind : ReadKind) → (form_among (state_after before) line behind ≡ Err kind) ↔ IsLeast (HasFault before line behind) kind }
    ensures formed { (before : List Form) (line : PlainLine) (behind : List PlainLine) → ((f : Form) × (form_among (state_after before) line behind ≡ Ok f)) ↔ HasNone (HasFault before line behind) }
    ensures refused { (text : List ℕ) (tokens : List Token) (f : Refusal) → (reading text tokens ≡ Err f) ↔ IsFaultOfText text tokens f }
    ensures least { (text : List ℕ) (tokens : List Token) (f : Refusal) → tokens_of text ≡ Ok tokens → (reading text tokens ≡ Err f) ↔ IsLeastOfText text tokens f }
    ensures read { (text : List ℕ) (tokens : List Token) (classes : List PlainClassText) → (reading text tokens ≡ Ok classes) ↔ (((f : Refusal) → IsFaultOfText text tokens f → ⊥) × (classes ≡ classes_of (forms_alone (lines_after text [] tokens)))) }
{}

/// What a line says is its form by the rules on its words, which are the rules of its faults too: it has one exactly where it
/// has no fault, and no other. A text is read exactly where no line has a fault, and then its classes are those that the forms
/// of its lines make by the rules.
pub fn lines_have_forms()
    ensures alone { (n : ℕ) (words : List Lexeme) (f : Form) → (form_of n words ≡ Ok f) ↔ HasForm n words f }
    ensures one { (n : ℕ) (words : List Lexeme) (f g : Form) → HasForm n words f → HasForm n words g → f ≡ g }
    ensures some { (n : ℕ) (words : List Lexeme) → ((f : Form) × HasForm n words f) ↔ HasNone (IsSpoiled words) }
    ensures read { (text : List ℕ) (tokens : List Token) (classes : List PlainClassText) → (reading text tokens ≡ Ok classes) ↔ (((f : Refusal) → IsFaultOfText text tokens f → ⊥) × (forms : List Form) × HaveForms (lines_after text [] tokens) forms × AreClassesOf forms classes) }
{}

/// Forms of lines, whatever they are, are put together as the classes that they make by the rules: by what each line begins,
/// and by which lines after it belong to that.
pub fn forms_make_classes()
    ensures { (forms : List Form) (classes : List PlainClassText) → (classes ≡ classes_of forms) ↔ AreClassesOf forms classes }
{}
