//! Laws of the definitions.
ghost use Rattle.std.specs.Prelude.{ℕ, List, Result, ℤ, ◌≡◌};
ghost use Rattle.psu_lex.specs.Data.{IsBlockOf, IsDatumOf, IsStringOf};
ghost use Rattle.psu_lex.specs.Macros.{ExpandsTo};
ghost use Rattle.psu_lex.specs.Number.{Number, IsNumber, NumberGives, number_text};
ghost use Rattle.psu_lex.specs.Message.{Part, IsMessage};
ghost use Rattle.psu_lex.specs.Syntax.{HeaderParts, IsHeader, Syntax, SyntaxGives, UnitReads, header_text};
ghost use Rattle.psu_lex.specs.declared.scpi_error.ScpiError.{ScpiError};

/// Every list of bytes can be divided into units.
#[tactic(auto, using(crate::proofs::Tokens::some_units))]
pub fn every_list_has_units()
    ensures { (bytes : List ℕ) → (units : List Part) × IsMessage bytes units }
{}

/// A list of bytes has at most one list of units.
pub fn one_list_of_units()
    ensures { (bytes : List ℕ) (units others : List Part) → IsMessage bytes units → IsMessage bytes others → units ≡ others }
{}

/// A text is a string of at most one content.
pub fn one_content_of_a_string()
    ensures { (text bytes others : List ℕ) → IsStringOf text bytes → IsStringOf text others → bytes ≡ others }
{}

/// A text is a block of at most one content.
pub fn one_content_of_a_block()
    ensures { (text bytes others : List ℕ) → IsBlockOf text bytes → IsBlockOf text others → bytes ≡ others }
{}

/// A datum is a block of at most one content.
pub fn one_content_of_a_datum()
    ensures { (text bytes others : List ℕ) → IsDatumOf text bytes → IsDatumOf text others → bytes ≡ others }
{}

/// A text is the spelling of at most one number.
#[tactic(auto, using(crate::proofs::NumberFound::one_number))]
pub fn one_number_of_a_text()
    ensures { (m n : Number) → IsNumber m → IsNumber n → number_text m ≡ number_text n → m ≡ n }
{}

/// A text gives at most one result: a value or an error.
pub fn one_value_of_a_text()
    ensures { (text : List ℕ) (places : ℕ) (value other : Result ℤ ScpiError) → NumberGives text places value → NumberGives text places other → value ≡ other }
{}

/// Every text gives a value or an error.
#[tactic(auto, using(crate::proofs::UnitParts::some_value))]
pub fn every_text_gives_a_value()
    ensures { (text : List ℕ) (places : ℕ) → (value : Result ℤ ScpiError) × NumberGives text places value }
{}

/// A text has at most one header and one list of data.
pub fn one_syntax_of_a_text()
    ensures { (text : List ℕ) (syntax other : Syntax) → UnitReads text syntax → UnitReads text other → syntax ≡ other }
{}

/// A text is the spelling of at most one header.
#[tactic(auto, using(crate::proofs::HeaderScans::one_header))]
pub fn one_header_of_a_text()
    ensures { (header other : HeaderParts) → IsHeader header → IsHeader other → header_text header ≡ header_text other → header ≡ other }
{}

/// A unit gives at most one result.
#[tactic(auto, using(crate::proofs::UnitParts::one_result))]
pub fn one_syntax_of_a_unit()
    ensures { (unit : Part) (result other : Result Syntax ScpiError) → SyntaxGives unit result → SyntaxGives unit other → result ≡ other }
{}

/// Every unit gives a result.
#[tactic(auto, using(crate::proofs::UnitParts::some_result))]
pub fn every_unit_has_a_syntax()
    ensures { (unit : Part) → (result : Result Syntax ScpiError) × SyntaxGives unit result }
{}

/// A body with the same parameters gives at most one result: an expansion or an error.
pub fn one_expansion_of_a_body()
    ensures { (body : List ℕ) (args : List (List ℕ)) (result other : Result (List ℕ) ScpiError)
        → ExpandsTo body args result → ExpandsTo body args other → result ≡ other }
{}

/// Every body gives a result: an expansion or an error.
#[tactic(auto, using(crate::proofs::Expansions::some_expansion))]
pub fn every_body_has_an_expansion()
    ensures { (body : List ℕ) (args : List (List ℕ)) → (result : Result (List ℕ) ScpiError) × ExpandsTo body args result }
{}
