//! Laws of the grammar of certificates. Each law is the contract of a function that does nothing.
ghost use Rattle.std.specs.Prelude.{◌≡◌, ◌↔◌, ℕ, List, None, Some};
ghost use Rattle.cert_text.specs.declared.line.Version.{Version};
ghost use Rattle.cert_text.specs.declared.line.Version.TheVariants.{Two};
ghost use Rattle.cert_text.specs.declared.line.Line.{Line};
ghost use Rattle.cert_text.specs.Certs.{PlainCert, PlainCert1};
ghost use Rattle.cert_text.specs.Grammar.{IsLine, IsSpelled, IsSpelled1};
ghost use Rattle.cert_text.specs.Forms.{form_of};
ghost use Rattle.cert_text.specs.Faults.{fault_of};

/// A line is read from a text exactly if the text is its one spelling.
pub fn what_is_read_is_spelled()
    ensures { (v : Version) (text : List ℕ) (line : Line) → (form_of v text ≡ Some line) ↔ IsLine v text line }
{}

/// The text of a certificate has no fault.
pub fn what_is_spelled_has_no_fault()
    ensures { (bytes : List ℕ) (c : PlainCert) → IsSpelled bytes c → fault_of Two bytes ≡ None }
{}

/// A text spells at most one certificate.
pub fn a_text_is_of_one_certificate()
    ensures { (bytes : List ℕ) (c d : PlainCert) → IsSpelled bytes c → IsSpelled bytes d → c ≡ d }
{}

/// A text spells at most one certificate of version 1.
pub fn a_text_is_of_one_certificate_of_version_1()
    ensures { (bytes : List ℕ) (c d : PlainCert1) → IsSpelled1 bytes c → IsSpelled1 bytes d → c ≡ d }
{}
