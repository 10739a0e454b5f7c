// Eliminations worked out in full: that the definitions give the values which Amestoy, Davis and Duff's rules give by
// hand. Source: worked by hand from the rules, and with a plain program that follows them. The contracts are the
// values.

ghost use Rattle.std.specs.Prelude.{◌≡◌, pos, negsuc, true, false, [], ◌∷◌, map, Some, None};
ghost use Rattle.amd_model.specs.Below.{list_below};
ghost use Rattle.amd_model.specs.Graph.{edge_count, degree_sum};
ghost use Rattle.amd_model.specs.State.{front};
ghost use Rattle.amd_model.specs.Step.{absorbed, block, border_of, new_bound};
ghost use Rattle.amd_model.specs.Run.{Run};
ghost use Rattle.amd_model.specs.Figures.{figure, entries, ldl_steps, lu_steps, greatest_front};
ghost use Rattle.amd_model.specs.Factor.{IsFactor, needed, needed_front};
ghost use Rattle.amd_model.specs.Listing.{IsPostorder};
ghost use Rattle.amd_model.specs.Input.Columns.{IsInput, IsJumbledInput};
ghost use Rattle.amd_model.specs.Input.Dense.{IsThreshold, is_dense};
ghost use Rattle.amd_model.specs.Input.Pattern.{is_pair, pair_count, diagonal_count};
ghost use Rattle.amd_model.specs.Quotient.{Fits, starting_list, pivot, next, after_rounds};
ghost use Rattle.amd_model.specs.Examples.Table.{none_dense};
ghost use Rattle.amd_model.specs.Examples.Cycle.{cycle, cycle_quotient};
ghost use Rattle.amd_model.specs.Examples.Seven.{seven, seven_quotient};
ghost use Rattle.amd_model.specs.Examples.Eleven.{eleven, eleven_quotient, row_one};
ghost use Rattle.amd_model.specs.Examples.Cycle;
ghost use Rattle.amd_model.specs.Examples.Seven;
ghost use Rattle.amd_model.specs.Examples.Eleven;

/// The cycle of four rows: pivots 3 and 2.
pub fn example_cycle()
    ensures run { Run cycle none_dense true Cycle.at_start (Cycle.after_one ∷ Cycle.after_two ∷ []) }
    ensures listing { IsPostorder cycle none_dense Cycle.after_two Cycle.listing }
    ensures lnz { figure entries cycle none_dense Cycle.after_two ≡ 5 }
    ensures ldl { figure ldl_steps cycle none_dense Cycle.after_two ≡ 7 }
    ensures lu { figure lu_steps cycle none_dense Cycle.after_two ≡ 9 }
    ensures d_max { greatest_front cycle none_dense Cycle.after_two ≡ 3 }
    ensures first_front { list_below 4 (front cycle Cycle.at_start 3) ≡ 0 ∷ 2 ∷ [] }
    ensures first_bound { new_bound cycle true Cycle.at_start Cycle.after_one 3 2 ≡ 1 }
    ensures old_bound_counts { new_bound cycle true Cycle.unbound Cycle.after_one 3 2 ≡ 0 }
    ensures second_block { list_below 4 (block cycle true Cycle.after_one 2) ≡ 0 ∷ 1 ∷ 2 ∷ [] }
{}

/// The same in lists: the starting lists, the pivots, and where the rows are at the end.
pub fn example_cycle_lists()
    ensures lists { map (starting_list 4 (is_pair 4 Cycle.pointers Cycle.rows)) (0 ∷ 1 ∷ 2 ∷ 3 ∷ []) ≡
        (1 ∷ 3 ∷ []) ∷ (0 ∷ 2 ∷ []) ∷ (1 ∷ 3 ∷ []) ∷ (0 ∷ 2 ∷ []) ∷ [] }
    ensures first_pivot { pivot cycle_quotient.bound cycle_quotient.placed ≡ 3 }
    ensures second_pivot { pivot (next true cycle_quotient).bound (next true cycle_quotient).placed ≡ 2 }
    ensures fits { Fits cycle cycle_quotient Cycle.at_start }
    ensures homes { map (after_rounds 4 true cycle_quotient).home (0 ∷ 1 ∷ 2 ∷ 3 ∷ []) ≡ Cycle.two_table.homes }
{}

/// The columns of its factor under that listing.
pub fn example_cycle_factor()
    ensures factor { IsFactor cycle Cycle.listing Cycle.columns }
    ensures entries_needed { needed entries Cycle.columns ≡ 5 }
    ensures front_needed { needed_front Cycle.columns ≡ 3 }
{}

/// A graph of seven rows: pivots 0, 6 and 2, and three rows that become one class.
pub fn example_seven()
    ensures run { Run seven none_dense true Seven.at_start (Seven.after_one ∷ Seven.after_two
        ∷ Seven.after_three ∷ []) }
    ensures listing { IsPostorder seven none_dense Seven.after_three Seven.listing }
    ensures lnz { figure entries seven none_dense Seven.after_three ≡ 15 }
    ensures ldl { figure ldl_steps seven none_dense Seven.after_three ≡ 29 }
    ensures lu { figure lu_steps seven none_dense Seven.after_three ≡ 43 }
    ensures d_max { greatest_front seven none_dense Seven.after_three ≡ 5 }
    ensures second_front { list_below 7 (front seven Seven.after_one 6) ≡ 2 ∷ 3 ∷ 5 ∷ [] }
    ensures second_bound { new_bound seven true Seven.after_one Seven.after_two 6 2 ≡ 2 }
    ensures third_block { list_below 7 (block seven true Seven.after_two 2) ≡ 1 ∷ 2 ∷ 3 ∷ 4 ∷ 5 ∷ [] }
{}

/// The same in lists: the starting lists, the pivots, and where the rows are at the end.
pub fn example_seven_lists()
    ensures lists { map (starting_list 7 (is_pair 7 Seven.pointers Seven.rows)) (0 ∷ 1 ∷ 2 ∷ 3 ∷ 4 ∷ 5 ∷ 6 ∷ []) ≡
        (5 ∷ 6 ∷ []) ∷ (2 ∷ 3 ∷ 4 ∷ 5 ∷ []) ∷ (1 ∷ 3 ∷ 4 ∷ 6 ∷ []) ∷ (1 ∷ 2 ∷ 4 ∷ 6 ∷ []) ∷ (1 ∷ 2 ∷ 3 ∷ 5 ∷ [])
        ∷ (0 ∷ 1 ∷ 4 ∷ []) ∷ (0 ∷ 2 ∷ 3 ∷ []) ∷ [] }
    ensures first_pivot { pivot seven_quotient.bound seven_quotient.placed ≡ 0 }
    ensures second_pivot { pivot (next true seven_quotient).bound (next true seven_quotient).placed ≡ 6 }
    ensures third_pivot { pivot (next true (next true seven_quotient)).bound
        (next true (next true seven_quotient)).placed ≡ 2 }
    ensures fits { Fits seven seven_quotient Seven.at_start }
    ensures homes { map (after_rounds 7 true seven_quotient).home (0 ∷ 1 ∷ 2 ∷ 3 ∷ 4 ∷ 5 ∷ 6 ∷ []) ≡
        Seven.three_table.homes }
{}

/// The columns of its factor under that listing.
pub fn example_seven_factor()
    ensures factor { IsFactor seven Seven.listing Seven.columns }
    ensures entries_needed { needed entries Seven.columns ≡ 15 }
    ensures front_needed { needed_front Seven.columns ≡ 5 }
{}

/// A graph of eleven rows, of which row 1 is held last and row 8 is empty: pivots 10, 6, 5, 3 and 4.
pub fn example_eleven()
    ensures run { Run eleven row_one true Eleven.at_start (Eleven.after_one ∷ Eleven.after_two ∷ Eleven.after_three
        ∷ Eleven.after_four ∷ Eleven.after_five ∷ []) }
    ensures listing { IsPostorder eleven row_one Eleven.after_five Eleven.listing }
    ensures lnz { figure entries eleven row_one Eleven.after_five ≡ 32 }
    ensures ldl { figure ldl_steps eleven row_one Eleven.after_five ≡ 80 }
    ensures lu { figure lu_steps eleven row_one Eleven.after_five ≡ 128 }
    ensures d_max { greatest_front eleven row_one Eleven.after_five ≡ 6 }
    ensures second_border { list_below 11 (border_of eleven true Eleven.after_one 6) ≡ 2 ∷ 3 ∷ 9 ∷ [] }
    ensures second_bound { new_bound eleven true Eleven.after_one Eleven.after_two 6 3 ≡ 5 }
    ensures fourth_bound { new_bound eleven true Eleven.after_three Eleven.after_four 3 2 ≡ 3 }
    ensures fifth_absorbed { list_below 11 (absorbed eleven true Eleven.after_four 4) ≡ 3 ∷ 10 ∷ [] }
    ensures fifth_plainly { list_below 11 (absorbed eleven false Eleven.after_four 4) ≡ 3 ∷ [] }
    ensures pairs { pair_count 11 Eleven.pointers Eleven.rows ≡ 23 }
    ensures diagonal { diagonal_count 11 Eleven.pointers Eleven.rows ≡ 1 }
    ensures edges { edge_count eleven ≡ 19 }
    ensures degrees { degree_sum eleven ≡ 38 }
    ensures dense_rows { list_below 11 (is_dense eleven 4) ≡ 0 ∷ 4 ∷ 9 ∷ [] }
{}

/// The same in lists: the starting lists, the pivots, and where the rows are at the end.
pub fn example_eleven_lists()
    ensures lists { map (starting_list 11 (is_pair 11 Eleven.pointers Eleven.rows))
        (0 ∷ 1 ∷ 2 ∷ 3 ∷ 4 ∷ 5 ∷ 6 ∷ 7 ∷ 8 ∷ 9 ∷ 10 ∷ []) ≡
        (3 ∷ 1 ∷ 2 ∷ 4 ∷ 5 ∷ 7 ∷ []) ∷ (0 ∷ 4 ∷ []) ∷ (0 ∷ 10 ∷ 6 ∷ []) ∷ (0 ∷ 4 ∷ 5 ∷ 6 ∷ [])
        ∷ (3 ∷ 7 ∷ 0 ∷ 1 ∷ 9 ∷ []) ∷ (3 ∷ 0 ∷ 9 ∷ []) ∷ (9 ∷ 2 ∷ 3 ∷ []) ∷ (4 ∷ 9 ∷ 0 ∷ 10 ∷ []) ∷ []
        ∷ (6 ∷ 7 ∷ 10 ∷ 4 ∷ 5 ∷ []) ∷ (2 ∷ 9 ∷ 7 ∷ []) ∷ [] }
    ensures first_pivot { pivot eleven_quotient.bound eleven_quotient.placed ≡ 10 }
    ensures second_pivot { pivot (next true eleven_quotient).bound (next true eleven_quotient).placed ≡ 6 }
    ensures third_pivot { pivot (next true (next true eleven_quotient)).bound
        (next true (next true eleven_quotient)).placed ≡ 5 }
    ensures fourth_pivot { pivot (next true (next true (next true eleven_quotient))).bound
        (next true (next true (next true eleven_quotient))).placed ≡ 3 }
    ensures fifth_pivot { pivot (next true (next true (next true (next true eleven_quotient)))).bound
        (next true (next true (next true (next true eleven_quotient)))).placed ≡ 4 }
    ensures fits { Fits eleven eleven_quotient Eleven.at_start }
    ensures homes { map (after_rounds 11 true eleven_quotient).home (0 ∷ 1 ∷ 2 ∷ 3 ∷ 4 ∷ 5 ∷ 6 ∷ 7 ∷ 8 ∷ 9 ∷ 10 ∷ []) ≡
        Eleven.five_table.homes }
{}

/// The columns of its factor under that listing.
pub fn example_eleven_factor()
    ensures factor { IsFactor eleven Eleven.listing Eleven.columns }
    ensures entries_needed { needed entries Eleven.columns ≡ 28 }
    ensures front_needed { needed_front Eleven.columns ≡ 6 }
{}

/// Column forms, jumbled columns, and thresholds of dense rows.
pub fn example_inputs()
    ensures cycle_form { IsInput (pos 4) (pos 4) Cycle.pointers Cycle.rows }
    ensures jumbled_form { IsInput (pos 2) (pos 2) (pos 0 ∷ pos 2 ∷ pos 2 ∷ []) (pos 1 ∷ pos 1 ∷ []) }
    ensures jumbled { IsJumbledInput (pos 2) (pos 0 ∷ pos 2 ∷ pos 2 ∷ []) (pos 1 ∷ pos 1 ∷ []) }
    ensures not_jumbled { IsJumbledInput (pos 2) (pos 0 ∷ pos 1 ∷ pos 2 ∷ []) (pos 1 ∷ pos 0 ∷ []) → ⊥ }
    ensures threshold { IsThreshold 400 (pos 1000) 20 }
    ensures raised { IsThreshold 400 (pos 0) 16 }
    ensures cut { IsThreshold 9 (pos 10000) 9 }
    ensures none_held { IsThreshold 30 (negsuc 499) 28 }
{}
