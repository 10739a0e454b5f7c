//! What a round of an elimination does, for any engine: a record of an engine is read as functions of a row, a class or
//! an element (`specs/Views.antt`), and the laws of a round speak of these functions alone. No code here runs; the
//! engines stand on the lemmas.
#![tactic(auto)]
