//! Files of cases, and how they are read.
use crate::numbers::{Numbers, line_for};
use crate::step::{Action, Step, StepFault, first_word, read_action, read_line};
use std::alloc::{AllocError, AllocFailed, Global};

/// Why a file of cases can't be read.
#[derive(Debug, Drop)]
pub enum CaseFault {
    Memory,
    /// The line with this number, from 1 on, says nothing that is known.
    Line(usize),
}

impl From<AllocError> for CaseFault {
    fn from(_: AllocError) -> CaseFault {
        CaseFault::Memory
    }
}

impl<T: Drop> From<AllocFailed<T>> for CaseFault {
    fn from(_: AllocFailed<T>) -> CaseFault {
        CaseFault::Memory
    }
}

/// A case: what it shows, with how many frames it is played, once with each number, and its steps.
#[derive(Drop)]
pub struct Case {
    pub name: String,
    pub frames: Vec<usize>,
    pub steps: Vec<Step>,
    /// What is asked of a session where the case is played once for each place where something can fail, else nothing.
    pub questions: String,
}

/// A line of a script.
#[derive(Drop)]
struct Line {
    number: usize,
    text: String,
}

/// A line at the left margin, and the lines of a script that stand below it, which are indented.
#[derive(Drop)]
struct Item {
    number: usize,
    text: String,
    lines: Vec<Line>,
}

/// A case, or steps that cases use.
#[derive(Drop)]
struct Section {
    name: String,
    is_case: bool,
    items: Vec<Item>,
}

// The frames of a case that doesn't say with how many it is played.
const FRAMES: [usize; 4] = [1, 2, 8, 64];

// The item of a line at the left margin.
fn begin_item(alloc: Global, number: usize, text: &str) -> Result<Item, AllocError> {
    Ok(Item {
        number,
        text: text.to_string(alloc)?,
        lines: Vec::new(alloc),
    })
}

// A section, whose first lines are those behind its name.
fn begin_section(
    alloc: Global,
    number: usize,
    name: &str,
    is_case: bool,
) -> Result<Section, AllocError> {
    let mut items = Vec::new(alloc);
    items.push(begin_item(alloc, number, "")?)?;
    Ok(Section {
        name: name.to_string(alloc)?,
        is_case,
        items,
    })
}

// Puts a line of a script behind the others.
fn put_indented(
    alloc: Global,
    sections: &mut Vec<Section>,
    number: usize,
    text: &str,
) -> Result<(), CaseFault> {
    let Some(section) = sections.last_mut() else {
        return Err(CaseFault::Line(number));
    };
    let Some(item) = section.items.last_mut() else {
        return Err(CaseFault::Line(number));
    };
    let text = text.to_string(alloc)?;
    item.lines.push(Line { number, text })?;
    Ok(())
}

// Puts a line at the left margin behind the others.
fn put_item(
    alloc: Global,
    sections: &mut Vec<Section>,
    number: usize,
    text: &str,
) -> Result<(), CaseFault> {
    let Some(section) = sections.last_mut() else {
        return Err(CaseFault::Line(number));
    };
    section.items.push(begin_item(alloc, number, text)?)?;
    Ok(())
}

fn put_line(
    alloc: Global,
    sections: &mut Vec<Section>,
    number: usize,
    text: &str,
) -> Result<(), CaseFault> {
    if text.is_empty() || text.starts_with('#') {
        return Ok(());
    }
    if text.starts_with(' ') {
        return put_indented(alloc, sections, number, text);
    }
    let (word, name) = first_word(text);
    if word != "case" && word != "define" {
        return put_item(alloc, sections, number, text);
    }
    sections.push(begin_section(alloc, number, name, word == "case")?)?;
    Ok(())
}

fn read_sections(alloc: Global, text: &str) -> Result<Vec<Section>, CaseFault> {
    let mut sections = Vec::new(alloc);
    for (place, line) in text.lines().enumerate() {
        put_line(alloc, &mut sections, place.saturating_add(1), line)?;
    }
    Ok(sections)
}

// Numbers of frames, of which there can be 1 to 64.
fn read_frames(alloc: Global, number: usize, text: &str) -> Result<Vec<usize>, CaseFault> {
    let mut frames = Vec::new(alloc);
    for word in text.split(' ') {
        match word.parse() {
            Ok(count) if 1 <= count && count <= 64 => frames.push(count)?,
            _ => return Err(CaseFault::Line(number)),
        }
    }
    Ok(frames)
}

impl Case {
    fn new(alloc: Global, name: &str) -> Result<Case, AllocError> {
        Ok(Case {
            name: name.to_string(alloc)?,
            frames: FRAMES.to_vec(alloc)?,
            steps: Vec::new(alloc),
            questions: String::new(alloc),
        })
    }

    // Puts a line of a script behind the steps.
    fn say_text(&mut self, alloc: Global, number: usize, text: &str) -> Result<(), AllocError> {
        let action = read_line(alloc, text)?;
        self.steps.push(Step { number, action })?;
        Ok(())
    }

    fn say(&mut self, alloc: Global, lines: &[Line]) -> Result<(), AllocError> {
        for line in lines {
            self.say_text(alloc, line.number, &line.text)?;
        }
        Ok(())
    }

    // Says the lines so often.
    fn say_often(&mut self, alloc: Global, times: u32, lines: &[Line]) -> Result<(), AllocError> {
        for _ in 0..times {
            self.say(alloc, lines)?;
        }
        Ok(())
    }

    fn say_for(&mut self, alloc: Global, number: u16, lines: &[Line]) -> Result<(), AllocError> {
        for line in lines {
            let text = line_for(alloc, &line.text, number)?;
            self.say_text(alloc, line.number, &text)?;
        }
        Ok(())
    }

    // Says the lines for each number.
    fn say_for_each(
        &mut self,
        alloc: Global,
        numbers: Numbers,
        lines: &[Line],
    ) -> Result<(), AllocError> {
        for place in 0..numbers.count() {
            self.say_for(alloc, numbers.at(place), lines)?;
        }
        Ok(())
    }

    // Says the lines of an item as often as it says, if it is of that kind.
    fn put_repeated(&mut self, alloc: Global, item: &Item) -> Result<bool, CaseFault> {
        let (word, rest) = first_word(&item.text);
        match word {
            "often" => match rest.parse() {
                Ok(times) => self.say_often(alloc, times, &item.lines)?,
                Err(_) => return Err(CaseFault::Line(item.number)),
            },
            "for" => match Numbers::read(rest) {
                Some(numbers) => self.say_for_each(alloc, numbers, &item.lines)?,
                None => return Err(CaseFault::Line(item.number)),
            },
            _ => return Ok(false),
        }
        Ok(true)
    }

    // Puts what a line at the left margin says behind the steps, if it says anything.
    fn put_action(&mut self, alloc: Global, number: usize, text: &str) -> Result<(), CaseFault> {
        if text.is_empty() {
            return Ok(());
        }
        match read_action(alloc, text) {
            Ok(action) => {
                self.steps.push(Step { number, action })?;
                Ok(())
            }
            Err(StepFault::Memory) => Err(CaseFault::Memory),
            Err(StepFault::Unknown) => Err(CaseFault::Line(number)),
        }
    }

    fn put(&mut self, alloc: Global, item: &Item) -> Result<(), CaseFault> {
        if self.put_repeated(alloc, item)? {
            return Ok(());
        }
        match first_word(&item.text) {
            ("then", _) => {}
            ("frames", rest) => self.frames = read_frames(alloc, item.number, rest)?,
            _ => self.put_action(alloc, item.number, &item.text)?,
        }
        self.say(alloc, &item.lines)?;
        Ok(())
    }

    fn put_all(&mut self, alloc: Global, items: &[Item]) -> Result<(), CaseFault> {
        for item in items {
            self.put(alloc, item)?;
        }
        Ok(())
    }

    // The lines of the script.
    fn script(&self, alloc: Global) -> Result<String, AllocError> {
        let mut script = String::new(alloc);
        for step in &self.steps {
            if let Action::Say(line) = &step.action {
                script.push_str(line.script())?;
            }
        }
        Ok(script)
    }

    // Anything may fail from here on, where a new file is made if the case hasn't begun on one. The lines of the
    // section are what is asked.
    fn begin_anywhere(
        &mut self,
        alloc: Global,
        number: usize,
        section: &Section,
    ) -> Result<(), CaseFault> {
        let mut asked = Case::new(alloc, "")?;
        asked.put_all(alloc, &section.items)?;
        self.questions = asked.script(alloc)?;
        if self.steps.is_empty() {
            let action = Action::New;
            self.steps.push(Step { number, action })?;
        }
        Ok(())
    }

    // Puts the steps there that an item uses, or what it says itself.
    fn put_or_use(
        &mut self,
        alloc: Global,
        sections: &[Section],
        item: &Item,
    ) -> Result<(), CaseFault> {
        let number = item.number;
        match first_word(&item.text) {
            ("use", name) => self.put_all(alloc, &section_of(sections, number, name)?.items)?,
            ("anywhere", name) => {
                self.begin_anywhere(alloc, number, section_of(sections, number, name)?)?
            }
            _ => return self.put(alloc, item),
        }
        self.say(alloc, &item.lines)?;
        Ok(())
    }
}

// The section of a name that a line says.
fn section_of<'a>(
    sections: &'a [Section],
    number: usize,
    name: &str,
) -> Result<&'a Section, CaseFault> {
    match sections
        .iter()
        .find(|section| section.name.as_str() == name)
    {
        Some(section) => Ok(section),
        None => Err(CaseFault::Line(number)),
    }
}

fn read_case(alloc: Global, sections: &[Section], section: &Section) -> Result<Case, CaseFault> {
    let mut case = Case::new(alloc, &section.name)?;
    for item in &section.items {
        case.put_or_use(alloc, sections, item)?;
    }
    Ok(case)
}

/// Reads a file of cases.
pub fn read_cases(alloc: Global, text: &str) -> Result<Vec<Case>, CaseFault> {
    let sections = read_sections(alloc, text)?;
    let mut cases = Vec::new(alloc);
    for section in &sections {
        if section.is_case {
            cases.push(read_case(alloc, &sections, section)?)?;
        }
    }
    Ok(cases)
}
