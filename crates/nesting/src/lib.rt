// The whole plan (document 01, "Order and swaps", "The printed plan"): definitions in specs/. Their code
// stands in the crates copy_order, better, swaps, nest, lines, text and plan_text.

#![tactic(auto)]
