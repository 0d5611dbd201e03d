//! Laws of delay files. Each holds of all values, and its function does nothing.

ghost use Rattle.std.specs.Prelude.{◌≡◌, ◌<◌, ℕ, List, Option, Some, true, length};
ghost use Rattle.bud_syntax.specs.declared.delays.SdfFile.{SdfFile};
ghost use Rattle.text_scan.specs.Left.{Left};
ghost use Rattle.text_scan.specs.Decimals.{Decimal, IsLongest, ComesTo, spelling};
ghost use Rattle.text_scan.specs.declared.decimals.Round.{Round};
ghost use Rattle.sdf_lex.specs.Tokens.{Token};
ghost use Rattle.sdf_reader.specs.Numbers.{is_number, amount};
ghost use Rattle.sdf_reader.specs.Nests.{balanced, nested, lists, no_list, element, is_last, before_last};
ghost use Rattle.sdf_reader.specs.Lists.{IsListEnd};
ghost use Rattle.sdf_reader.specs.Names.{is_name, printed};
ghost use Rattle.sdf_reader.specs.NameForms.{IsName};
ghost use Rattle.sdf_reader.specs.Until.{Until};
ghost use Rattle.sdf_reader.specs.Cells.{Rows, many};
ghost use Rattle.sdf_reader.specs.Headers.{Heads, headers, header, ends_headers};
ghost use Rattle.sdf_reader.specs.Files.{Reads, IsBreached};

/// A text has at most one value, and at most one least breach.
pub fn one_value()
    ensures value { (text : List ℕ) (a b : SdfFile) → Reads text a → Reads text b → a ≡ b }
    ensures breach { (text : List ℕ) (a b : ℕ) → IsBreached text a → IsBreached text b → a ≡ b }
    ensures apart { (text : List ℕ) (value : SdfFile) (at : ℕ) → Reads text value → IsBreached text at → ⊥ }
{}

/// A word is a number where it spells a decimal, and its amount is the decimal times the unit, rounded up.
pub fn numbers_are_decimals()
    ensures sound { (unit : ℕ) (word : List ℕ) → is_number word ≡ true → (d : Decimal) × (IsLongest word d × (spelling d ≡ word) × ComesTo unit (Round.Up) d (amount unit word)) }
    ensures complete { (word : List ℕ) (d : Decimal) → IsLongest word d → spelling d ≡ word → is_number word ≡ true }
{}

/// What is passed up to the end of a list is balanced, and all that is balanced is passed.
pub fn lists_are_balanced()
    ensures sound { (left rest : Left Token) → balanced left ≡ Some rest → IsListEnd left rest }
    ensures complete { (left rest : Left Token) → IsListEnd left rest → balanced left ≡ Some rest }
{}

/// What is read as a repetition is one: its step, again and again, until the test holds.
pub fn repetitions()
    ensures entries { (step : Rows → Option Rows) (s t : Rows) → many step s ≡ Some t → Until (λ r. no_list r.1) step s t }
    ensures headers { (s t : Heads) → headers s ≡ Some t → Until ends_headers header s t }
    ensures lists { (s t : Left Token) → lists s ≡ Some t → Until no_list nested s t }
    ensures elements { (s t : Left Token) → before_last s ≡ Some t → Until is_last element s t }
{}

/// And all repetitions are read, where each step leaves fewer tokens.
pub fn all_repetitions()
    ensures entries { (step : Rows → Option Rows) → ((s t : Rows) → step s ≡ Some t → length t.1.0 < length s.1.0) →
        (s t : Rows) → Until (λ r. no_list r.1) step s t → many step s ≡ Some t }
    ensures lists { (s t : Left Token) → Until no_list nested s t → lists s ≡ Some t }
    ensures elements { (s t : Left Token) → Until is_last element s t → before_last s ≡ Some t }
{}

/// A word that is read as a name is one, and what is read is its printed form; and all names are read.
pub fn names_have_their_form()
    ensures point { (word : List ℕ) → is_name 46 word ≡ true → IsName 46 word (printed 46 word) }
    ensures slash { (word : List ℕ) → is_name 47 word ≡ true → IsName 47 word (printed 47 word) }
    ensures all_point { (word shown : List ℕ) → IsName 46 word shown → (is_name 46 word ≡ true) × (printed 46 word ≡ shown) }
    ensures all_slash { (word shown : List ℕ) → IsName 47 word shown → (is_name 47 word ≡ true) × (printed 47 word ≡ shown) }
{}
