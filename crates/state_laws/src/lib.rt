//! Laws of tables of states: they are the states of a design, and their live states and edges are nodes and items.
#![tactic(auto)]
