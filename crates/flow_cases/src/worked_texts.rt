//! Worked texts, computed by the definitions, on a function that does nothing.
ghost use Rattle.std.specs.Prelude.{◌≡◌, codes, Some, None};
ghost use Rattle.osek_values.specs.Numbers.{block_no, task_no};
ghost use Rattle.osek_standard.specs.declared.app.App.{App};
ghost use Rattle.osek_standard.specs.declared.point.Point.TheVariants as point;
ghost use Rattle.osek_standard.specs.Apps.{the_task};
ghost use Rattle.image_model.specs.declared.site.Form.TheVariants as form;
ghost use Rattle.trace_text.specs.PointTexts.{point_text};
ghost use Rattle.flow_text.specs.FlowLines.{form_text};

/// Points and forms, as they are shown of an application whose second task is T2.
pub fn points_and_forms()
    ensures halted { (app : App) → point_text app point.Halted ≡ codes "halt" }
    ensures over_none { (app : App) → point_text app (point.Routine (block_no 12) None) ≡ codes "b12/-" }
    ensures over_a_task { (app : App) → (the_task app 1).name ≡ codes "T2" → point_text app (point.Routine (block_no 1055) (Some (task_no 1))) ≡ codes "b1055/T2" }
    ensures stay { (app : App) → form_text app form.Stay ≡ codes "stay" }
    ensures general { (app : App) → form_text app form.General ≡ codes "general" }
{}
