//! The texts that stand in many lines of a trace, prepared once.
ghost use Rattle.std.specs.Prelude.{◌≡◌, ◌+◌, ◌<◌, ◌≤◌, ◌++◌, length, map, codes};
ghost use Rattle.osek_standard.specs.{Apps.{the_task, the_resource, source_count}, TraceText.{source_text, resource_text}};
ghost use Rattle.trace_text.specs.Labels.{task_label, counter_label, isr_label, resource_label, label_texts};

use arrayvec::ArrayVec;
use osek_standard::App;
use osek_values::limits::{MAX_COUNTERS, MAX_ISRS, MAX_RESOURCES, MAX_TASKS};
use osek_values::{Name, ResNo, SourceNo, TaskNo};
use std::marker::Model;
use text_pieces::Label;

pub(crate) const MAX_SOURCES: usize = MAX_COUNTERS + MAX_ISRS;

/// The texts of an application that stand in many lines of its trace. It holds no memory.
#[derive(Drop)]
pub(crate) struct Labels {
    tasks: ArrayVec<Label, MAX_TASKS>,
    sources: ArrayVec<Label, MAX_SOURCES>,
    resources: ArrayVec<Label, MAX_RESOURCES>,
}

impl Model for Labels {
    ghost use Rattle.trace_text.specs.Labels.{LabelTexts};

    ghost Value = { LabelTexts };

    ghost view = { λ l. record { tasks = l.tasks.items; sources = l.sources.items; resources = l.resources.items } };
}

// A mark and a name.
fn marked(mark: &[u8], name: &Name) -> Label
    requires { length mark.now ≤ 2 }
    ensures { result ≡ mark.now ++ name.now }
{
    let mut label = Label::new();
    label.add(mark);
    label.add(name.as_bytes());
    label
}

fn task_labels(app: &App) -> ArrayVec<Label, MAX_TASKS>
    ensures { result.items ≡ map task_label app.now.tasks }
{
    let mut labels = ArrayVec::new();
    for task in app.tasks.as_slice() {
        labels.push(marked(b" ", &task.name));
    }
    labels
}

fn resource_labels(app: &App) -> ArrayVec<Label, MAX_RESOURCES>
    ensures { result.items ≡ map resource_label app.now.resources }
{
    let mut labels = ArrayVec::new();
    for resource in app.resources.as_slice() {
        labels.push(marked(b"+", &resource.name));
    }
    labels
}

fn counter_labels(app: &App) -> ArrayVec<Label, MAX_SOURCES>
    ensures { result.items ≡ map counter_label app.now.counters }
{
    let mut labels = ArrayVec::new();
    for counter in app.counters.as_slice() {
        labels.push(marked(b" %", &counter.name));
    }
    labels
}

fn add_isr_labels(labels: &mut ArrayVec<Label, MAX_SOURCES>, app: &App)
    requires { length labels.old.items ≤ MAX_COUNTERS }
    ensures { labels.new.items ≡ labels.old.items ++ map isr_label app.now.isrs }
{
    for isr in app.isrs.as_slice() {
        labels.push(marked(b" @", &isr.name));
    }
}

impl Labels {
    /// The texts of an application.
    pub fn of(app: &App) -> Labels
        ensures { result ≡ label_texts app.now }
    {
        let mut sources = counter_labels(app);
        add_isr_labels(&mut sources, app);
        Labels {
            tasks: task_labels(app),
            sources,
            resources: resource_labels(app),
        }
    }

    // A space and the name of a task.
    pub(crate) fn task(&self, app: &App, task: TaskNo) -> &Label
        requires known { task.0 < length app.now.tasks }
        requires labelled { self.now ≡ label_texts app.now }
        ensures { result.now ≡ codes " " ++ (the_task app.now task.0).name }
    {
        &self.tasks.as_slice()[task.index()]
    }

    // A space and the text of a source.
    pub(crate) fn source(&self, app: &App, source: SourceNo) -> &Label
        requires known { source.0 < source_count app.now }
        requires labelled { self.now ≡ label_texts app.now }
        ensures { result.now ≡ codes " " ++ source_text app.now source.0 }
    {
        &self.sources.as_slice()[source.index()]
    }

    // The text of a resource that is held.
    pub(crate) fn resource(&self, app: &App, resource: ResNo) -> &Label
        requires known { resource.0 < length app.now.resources }
        requires labelled { self.now ≡ label_texts app.now }
        ensures { result.now ≡ resource_text app.now resource }
    {
        &self.resources.as_slice()[resource.index()]
    }
}
