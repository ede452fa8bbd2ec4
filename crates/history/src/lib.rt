// No code: what the book's figures are to the history of its accepted commands stands in specs/.
#![tactic(auto)]
