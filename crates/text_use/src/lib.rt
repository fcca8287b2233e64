//! Tests of text_fields, token_text, journal_text and link_script, through their public names.
#![tactic(auto)]

#[cfg(test)]
mod book;
#[cfg(test)]
mod fields;
#[cfg(test)]
mod journals;
#[cfg(test)]
mod printing;
#[cfg(test)]
mod script_lines;
#[cfg(test)]
mod scripts;
