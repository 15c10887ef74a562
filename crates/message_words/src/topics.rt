//! Topics with what a message says of their partitions.

use crate::sheet::{Fields, Sheet};
use std::alloc::AllocError;
use wire_types::Topic;

/// What the protocol guide calls, in an api's message, the list of topics, a topic's name and a topic's list of partitions.
#[derive(Clone, Copy)]
pub(crate) struct TopicNames {
    pub list: &'static str,
    pub name: &'static str,
    pub partitions: &'static str,
}

impl TopicNames {
    /// The names that most apis have.
    pub(crate) const USUAL: TopicNames = TopicNames {
        list: "topics",
        name: "name",
        partitions: "partitions",
    };
}

/// Appends a list of topics, and in each of them the list of its partitions with their fields.
pub(crate) fn push_topics<P: Fields>(
    sheet: &mut Sheet,
    names: TopicNames,
    topics: &[Topic<P>],
) -> Result<(), AllocError> {
    if topics.is_empty() {
        return sheet.push(names.list, "[]");
    }
    sheet.begin(names.list)?;
    for topic in topics {
        sheet.begin_entry();
        sheet.push_text(names.name, &topic.name)?;
        sheet.push_list(names.partitions, topic.partitions.as_slice())?;
        sheet.end();
    }
    sheet.end();
    Ok(())
}

/// Appends a list of topics, and in each of them the list of its partitions' indexes.
pub(crate) fn push_numbered_topics(
    sheet: &mut Sheet,
    names: TopicNames,
    topics: &[Topic<i32>],
) -> Result<(), AllocError> {
    if topics.is_empty() {
        return sheet.push(names.list, "[]");
    }
    sheet.begin(names.list)?;
    for topic in topics {
        sheet.begin_entry();
        sheet.push_text(names.name, &topic.name)?;
        sheet.push_numbers(names.partitions, topic.partitions.as_slice())?;
        sheet.end();
    }
    sheet.end();
    Ok(())
}
