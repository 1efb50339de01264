//! Laws of texts: what a text tells is told by no other.
ghost use Rattle.std.specs.Prelude.{◌≡◌, ℕ, ◌<◌, length};
ghost use Rattle.osek_standard.specs.{declared.app.App.{App}, Points.{IsPoint}};
ghost use Rattle.image_model.specs.{declared.site.{Form.{Form}, Site.{Site}}, Sites.{IsForm}};
ghost use Rattle.abstract_state.specs.declared.edge.FlowEdge.{FlowEdge};
ghost use Rattle.flow_text.specs.FlowLines.{form_text, edge_line, site_line, known_line};

/// The text of a form of an application is that of no other of its forms.
pub fn a_text_tells_one_form()
    ensures { (app : App) (x y : Form) → IsForm (length app.tasks) x → IsForm (length app.tasks) y → form_text app x ≡ form_text app y → x ≡ y }
{}

/// A line of an edge tells where it begins and ends.
pub fn a_line_tells_one_edge()
    ensures { (app : App) (e f : FlowEdge) → IsPoint app e.from → IsPoint app e.to → IsPoint app f.from → IsPoint app f.to → edge_line app e ≡ edge_line app f → e ≡ f }
{}

/// A line of a site tells its block and its form.
pub fn a_line_tells_one_site()
    ensures { (app : App) (b c : ℕ) (x y : Form) → b < length app.blocks → c < length app.blocks → IsForm (length app.tasks) x → IsForm (length app.tasks) y →
        site_line app b x ≡ site_line app c y → (b ≡ c) × (x ≡ y) }
{}

/// A line that says what is known of a site's status tells its block, its form and that.
pub fn a_line_tells_one_known_status()
    ensures { (app : App) (b c : ℕ) (x y : Site) → b < length app.blocks → c < length app.blocks → IsForm (length app.tasks) x.form → IsForm (length app.tasks) y.form →
        known_line app b x ≡ known_line app c y → (b ≡ c) × (x ≡ y) }
{}
