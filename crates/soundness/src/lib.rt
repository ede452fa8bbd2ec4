// That every command leaves a sound book sound: specs/Keeps.antt.
#![tactic(auto)]
