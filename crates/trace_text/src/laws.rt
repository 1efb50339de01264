//! Laws of event texts, and of the texts of points.
ghost use Rattle.std.specs.{Prelude.{◌≡◌, ℕ, ◌≤◌, ◌↔◌, true, false, List, [], ◌∷◌, ◌++◌, length, All, Option, Some, None, Result, Ok, Err}, List.{enumerate_from}};
ghost use Rattle.osek_values.specs.declared.{limits.TheConstants.{MAX_EVENT_LINE, MAX_EVENT_TEXT, MAX_RECORD}, event.Event.{Event}};
ghost use Rattle.osek_standard.specs.{declared.{app.App.{App}, point.Point.{Point}}, Apps.{IsDeclared}, Points.{IsPoint}};
ghost use Rattle.trace_text.specs.{declared.{fault.EventFault.TheVariants.{E2}, feed.FeedStep.TheVariants.{Line, End, More}}, EventWords.{words, read_line}};
ghost use Rattle.trace_text.specs.{EventText.{text_lines, numbered_lines, read_lines, read_text}, Feeds.{FeedState, no_bytes, next_answer, after_next, ComesOut, lines_to_long}};
ghost use Rattle.trace_text.specs.{EventGrammar.{HasWords, NamesUndeclared, SayNothing, Says, event_text}, PointTexts.{point_text}};
ghost use Rattle.trace_text.specs.{declared.fault.PointFault.{PointFault}, PointWords.{read_point_line}, PointGrammar.{IsLineAnswer}, RecordText.{read_record, record_text}};

/// A line has the words that it is read by, and no other ones.
pub fn a_line_has_one_list_of_words()
    ensures these { (line : List ℕ) → HasWords line (words line) }
    ensures no_others { (line : List ℕ) (ws : List (List ℕ)) → HasWords line ws → ws ≡ words line }
{}

/// A line is read as an event exactly where it says it, so it says one event at most.
pub fn a_line_is_read_as_what_it_says()
    ensures read { (app : App) (line : List ℕ) (e : Event) → Says app line e → read_line app line ≡ Ok (Some e) }
    ensures said { (app : App) (line : List ℕ) (e : Event) → read_line app line ≡ Ok (Some e) → Says app line e }
{}

/// A line is faulty for a source that isn't declared exactly where it is short enough and its words name one.
pub fn a_line_that_names_none_is_faulty()
    ensures faulty { (app : App) (line : List ℕ) → length line ≤ MAX_EVENT_LINE → NamesUndeclared app (words line) → read_line app line ≡ Err E2 }
    ensures only_then { (app : App) (line : List ℕ) → read_line app line ≡ Err E2 → (length line ≤ MAX_EVENT_LINE) × NamesUndeclared app (words line) }
{}

/// A line says no event exactly where it is short enough and has no words, or a comment.
pub fn a_line_without_words_says_nothing()
    ensures nothing { (app : App) (line : List ℕ) → length line ≤ MAX_EVENT_LINE → SayNothing (words line) → read_line app line ≡ Ok None }
    ensures only_then { (app : App) (line : List ℕ) → read_line app line ≡ Ok None → (length line ≤ MAX_EVENT_LINE) × SayNothing (words line) }
{}

/// Each list of events of an application has a text, which reads back as that list.
pub fn a_text_of_events_reads_back()
    ensures { (app : App) (es : List Event) → All (IsDeclared app) es → length (event_text app es) ≤ MAX_EVENT_TEXT → read_text app (event_text app es) ≡ record { events = es; fault = None } }
{}

/// A line that comes out of a feed is the first of those that are still to come, or too long as that one is, and then its first bytes.
pub fn a_feed_gives_the_first_line()
    ensures line { (s : FeedState) (rest : List ℕ) → (s.finished ≡ true → rest ≡ []) → next_answer s ≡ Line → lines_to_long (text_lines (s.ahead ++ rest)) ≡ lines_to_long ((after_next s).line ∷ text_lines ((after_next s).ahead ++ rest)) }
    ensures end { (s : FeedState) → (next_answer s ≡ End) ↔ ((s.finished ≡ true) × (s.ahead ≡ [])) }
    ensures more { (s : FeedState) → next_answer s ≡ More → (s.finished ≡ false) × (length s.ahead ≤ MAX_EVENT_LINE) }
{}

/// However a text is cut into pieces, the same lines come out. Up to the first that is too long they are the lines of the text, and
/// they say what it says.
pub fn the_lines_of_a_text_come_out_for_every_cut()
    ensures same { (text : List ℕ) (lines others : List (List ℕ)) → ComesOut no_bytes text lines → ComesOut no_bytes text others → lines ≡ others }
    ensures lines { (text : List ℕ) (lines : List (List ℕ)) → ComesOut no_bytes text lines → lines_to_long lines ≡ lines_to_long (text_lines text) }
    ensures reading { (app : App) (text : List ℕ) (lines : List (List ℕ)) → ComesOut no_bytes text lines → read_lines app (enumerate_from 1 lines) ≡ read_lines app (numbered_lines text) }
{}

/// The text of a point of an application is that of no other of its points.
pub fn a_text_tells_one_point()
    ensures { (app : App) (p q : Point) → IsPoint app p → IsPoint app q → point_text app p ≡ point_text app q → p ≡ q }
{}

/// A line of a record is answered as what it says: a point, nothing, or the fault that it has; so it says one of these, and one alone.
pub fn a_line_says_a_point()
    ensures said { (app : App) (line : List ℕ) → IsLineAnswer app line (read_point_line app line) }
    ensures read { (app : App) (line : List ℕ) (r : Result (Option Point) PointFault) → IsLineAnswer app line r → read_point_line app line ≡ r }
{}

/// Points of an application that are printed, each on a line of its own, are read back as these points.
pub fn a_record_reads_back()
    ensures { (app : App) (points : List Point) → All (IsPoint app) points → length (record_text app points) ≤ MAX_RECORD → read_record app (record_text app points) ≡ record { points = points; fault = None } }
{}
