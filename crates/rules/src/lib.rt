// The rule of each command, on the book as tables of rows by id: specs/Rules.antt.
#![tactic(auto)]
